// The search for errors in what was delivered, and exact repair of 254 bytes. Of the bytes alone it gives the codeword within three of them; with the words
// that carried them first the codeword with 2e + f at most 6, of which the words that are not sound are the f. It refuses exactly when there is none.
#![tactic(auto)]

mod errors;
mod marked;
mod solver;
mod values;

ghost use Rattle.std.specs.Prelude.{◌≡◌, length};
ghost use Rattle.rs.specs.Decode.{repairable, repaired, decode_refusal};
ghost use Rattle.refusal.specs.Checked.{checked_of};
ghost use Rattle.rs.specs.Marked.{repairable_marked, repaired_marked};
ghost use Rattle.search.specs.Marked.{confessed, marked_refusal, marked_leaves};
ghost use Rattle.search.specs.SearchMarked.{FirstRule};
ghost use Rattle.search.specs.Search.{patched_by, Mends, Damaged};

use errors::{Error, Marks};
use gf256::Tables;
use refusal::{Reason, Refusal};

// Repairs 254 delivered bytes in place: they become the codeword that differs from what was delivered in at most three bytes. A refusal,
// of another number of bytes or since there is no such codeword, leaves them as they were.
pub fn repair(block: &mut [u8]) -> Result<(), Refusal>
    ensures { (result ≡ checked_of (decode_refusal block.old)) × (block.new ≡ repaired block.old) }
{
    let rest = rs::remainder(block)?;
    if rest == [0; 6] {
        return Ok(());
    }
    refusal::require(mend(block, rest), refusal::plain(Reason::BeyondRepair))
}

// Repairs 254 delivered bytes in place, with the 254 words that carried them: a word that is not sound marks its byte. They become the codeword with
// 2e + f at most 6, where f is the number of marks and e that of the other bytes that differ from it; where there is none, the codeword within
// three bytes. A refusal, of another number of words or bytes or since there is neither, leaves them as they were. A codeword is its own answer, so
// that no mark is looked for.
pub fn repair_marked(block: &mut [u8], words: &[u16]) -> Result<(), Refusal>
    ensures { (result ≡ checked_of (marked_refusal words.now block.old)) × (block.new ≡ marked_leaves words.now block.old) }
{
    refusal::require(words.len() == 254, refusal::plain(Reason::Size))?;
    let rest = rs::remainder(block)?;
    if rest == [0; 6] {
        return Ok(());
    }
    refusal::require(
        mend_marked(block, rest, words.try_into().unwrap()),
        refusal::plain(Reason::BeyondRepair),
    )
}

// Adds errors to a block.
fn patch(block: &mut [u8], errors: &[Error])
    requires { length block.old ≡ 254 }
    ensures { block.new ≡ patched_by errors.now block.old }
{
    for e in errors {
        let i = 253 - e.place.exponent;
        block[i] = gf256::sum(block[i], e.value);
    }
}

// Repairs a block by errors, where they are found and have its six sums.
fn mend_by<const N: usize>(
    tables: &Tables,
    block: &mut [u8],
    s: [u8; 6],
    errors: Option<[Error; N]>,
) -> bool
    requires { length block.old ≡ 254 }
    ensures { Mends N s errors.entry block.old result block.new }
{
    let Some(errors) = errors else {
        return false;
    };
    if !solver::explained(tables, s, &errors) {
        return false;
    }
    patch(block, &errors);
    true
}

// Repairs a block that is no codeword, by what the division left of it (a struct of both would hold a loan): by one error, by
// two or by three.
fn mend(block: &mut [u8], rest: [u8; 6]) -> bool
    requires { Damaged block.old rest }
    ensures { (result ≡ repairable block.old) × (block.new ≡ repaired block.old) }
{
    let tables = Tables::new();
    let s = solver::sums(&tables, rest);
    if mend_by(&tables, block, s, solver::one_error(&tables, s)) {
        return true;
    }
    if mend_by(&tables, block, s, solver::two_errors(&tables, s, 6)) {
        return true;
    }
    mend_by(&tables, block, s, solver::three_errors(&tables, s))
}

// Repairs a block that is no codeword by its marked places, one to six of them, where a codeword has 2e + f at most 6.
fn mend_marks(block: &mut [u8], rest: [u8; 6], marks: Marks) -> bool
    requires { Damaged block.old rest }
    ensures { FirstRule marks block.old result block.new }
{
    let tables = Tables::new();
    let s = solver::sums(&tables, rest);
    let errors = marked::find_marked(&tables, s, marks);
    mend_by(&tables, block, s, Some(errors))
}

// Repairs a block that is no codeword, by what the division left of it and by the places that the words mark: with one to six of them first by these.
fn mend_marked(block: &mut [u8], rest: [u8; 6], words: &[u16; 254]) -> bool
    requires { Damaged block.old rest }
    ensures { (result ≡ repairable_marked (confessed words.now) block.old) × (block.new ≡ repaired_marked (confessed words.now) block.old) }
{
    if let Some(marks) = marked::marks_of(words) {
        if mend_marks(block, rest, marks) {
            return true;
        }
    }
    mend(block, rest)
}
