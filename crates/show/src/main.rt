// Prints one field: reads it from standard input, and writes what `lines::show` says of it. One byte more than a field has is asked for, so
// that a longer input is told from a field.
#![tactic(auto)]

ghost use Rattle.std.specs.Prelude.{IfOk, ◌≤◌, length};

use std::io;
use std::io::{Read, Write};

// Fills `room` from the input, as far as that goes, and says how many bytes came. By `read` and not by the library's copy, which would read again where a
// read was interrupted: any read that fails ends the program. What came so far counts the turns, so the loop is a `while`.
fn fill<R: Read>(from: &mut R, room: &mut [u8]) -> io::Result<usize>
    ensures { IfOk result (λ n. n ≤ length room.new) }
{
    let mut got: usize = 0;
    while got < room.len() {
        let more = from.read(&mut room[got..])?;
        if more == 0 {
            return Ok(got);
        }
        got += more;
    }
    Ok(got)
}

fn main(rt: HostRuntime) -> io::Result<()> {
    let mut input = [0u8; 329];
    let got = fill(&mut rt.reader(), &mut input)?;
    let page = lines::show(&input[..got]);
    io::writer(&rt).write_all(&page.bytes[..page.length])
}
