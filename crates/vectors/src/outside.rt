// The outside vectors, from standard input.
ghost use Rattle.std.specs.Prelude.{IfOk, ◌≤◌, length};

use answers::{AyAnswer, AyVerdict};
use std::io;
use std::io::Read;

// Fills `room` from the input, as far as that goes, and says how many bytes came. By `read` and not by the library's copy, which would read again where a
// read was interrupted: any read that fails ends the program. What came so far counts the turns, so the loop is a `while`.
fn fill<R: Read>(from: &mut R, room: &mut [u8]) -> io::Result<usize>
    ensures { IfOk result (λ n. n ≤ length room.new) }
{
    let mut got: usize = 0;
    while got < room.len() {
        let more = from.read(&mut room[got..])?;
        if more == 0 {
            return Ok(got);
        }
        got += more;
    }
    Ok(got)
}

// Is the parity of the first 248 bytes the last six?
fn parity_equal(block: [u8; 254]) -> bool {
    block.ends_with(&rs::parity(&block[..248]))
}

// How many of 200 parities are equal.
pub(crate) fn parities<R: Read>(from: &mut R) -> io::Result<u64> {
    let mut block = [0; 254];
    let mut equal = 0u64;
    for _ in 0..200 {
        if fill(from, &mut block)? == 254 && parity_equal(block) {
            equal = equal.wrapping_add(1);
        }
    }
    Ok(equal)
}

// Is the block repaired as the vector has it, or left where the vector says none?
fn repair_equal(vector: [u8; 509]) -> bool {
    let mut block = [0; 254];
    block.copy_from_slice(&vector[1..255]);
    let told = AyAnswer::from(search::repair(&mut block));
    let wanted = if vector[0] == 1 { 0 } else { 9 };
    told.number == wanted && vector.ends_with(&block)
}

// Is the block found a codeword exactly where the vector has nothing to change in it?
fn check_equal(vector: [u8; 509]) -> bool {
    let mut block = [0; 254];
    block.copy_from_slice(&vector[1..255]);
    let told = AyVerdict::from(rs::check_codeword(&block));
    let whole = vector[0] == 1 && vector.ends_with(&block);
    told.number == 0 && told.codeword == whole
}

// Do both repairers say the same of the block, and leave the same?
fn repaired_alike(vector: [u8; 509]) -> bool {
    let mut quick = [0; 254];
    quick.copy_from_slice(&vector[1..255]);
    let mut slow = quick;
    search::repair(&mut quick) == plain::repair(&mut slow) && quick == slow
}

// How many deliveries are repaired and checked as the vectors have it, and at how many both repairers agree.
#[derive(Clone, Copy, Debug, PartialEq, Eq)]
pub(crate) struct Compared {
    pub equal: u64,
    pub alike: u64,
}

// The next deliveries. The plain repairer runs on those that have a codeword near, and where `all` is set on each.
pub(crate) fn deliveries<R: Read>(from: &mut R, count: usize, all: bool) -> io::Result<Compared> {
    let mut vector = [0; 509];
    let mut compared = Compared { equal: 0, alike: 0 };
    for _ in 0..count {
        let whole = fill(from, &mut vector)? == 509;
        if whole && repair_equal(vector) && check_equal(vector) {
            compared.equal = compared.equal.wrapping_add(1);
        }
        if whole && (all || vector[0] == 1) && repaired_alike(vector) {
            compared.alike = compared.alike.wrapping_add(1);
        }
    }
    Ok(compared)
}
