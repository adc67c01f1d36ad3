// A plain repairer of 254 bytes, to hold against the quick one of `search`: it tries no place, then each place, each pair and each triple of
// places in rising order, solves for the errors there, and stops at the first places whose errors have the six sums of what was delivered.
// It has the same contract. The loops over the places stand one in the other, each with a label, as the rules want them here: the innermost leaves them all.
#![tactic(auto)]

mod errors;
mod solver;

ghost use Rattle.std.specs.Prelude.{◌≡◌, [], ℕ, ◌≤◌, length};
ghost use Rattle.rs.specs.Decode.{repaired, decode_refusal};
ghost use Rattle.refusal.specs.Checked.{checked_of};
ghost use Rattle.plain.specs.Plain.{NoneFrom, FirstOf, First, Settles, mended};

use errors::Error;
use gf256::Tables;
use refusal::{Reason, Refusal};

// Repairs 254 delivered bytes in place: they become the codeword that differs from what was delivered in at most three bytes. A refusal,
// of another number of bytes or since there is no such codeword, leaves them as they were.
pub fn repair(block: &mut [u8]) -> Result<(), Refusal>
    ensures { (result ≡ checked_of (decode_refusal block.old)) × (block.new ≡ repaired block.old) }
{
    refusal::require(block.len() == 254, refusal::plain(Reason::Size))?;
    let tables = Tables::new();
    let Some(errors) = first_places(&tables, solver::sums(&tables, block)) else {
        return Err(refusal::plain(Reason::BeyondRepair));
    };
    mend(block, errors);
    Ok(())
}

// Adds the errors to what was delivered: since a sum is a difference too, this takes them out.
fn mend(block: &mut [u8], errors: [Error; 3])
    requires { length block.old ≡ 254 }
    ensures { block.new ≡ mended block.old errors }
{
    for e in errors {
        block[e.place] = gf256::sum(block[e.place], e.value);
    }
}

// The first errors that have the six sums, of those at no place, at one, at two and at three.
// One `if let` behind the other, and no `or_else`: what a closure promises did not reach the proof.
fn first_places(tables: &Tables, s: [u8; 6]) -> Option<[Error; 3]>
    ensures { Settles (First s) ((n : ℕ) → n ≤ 3 → NoneFrom n 0 [] s) s result }
{
    if let Some(errors) = solver::no_place(tables, s) {
        return Some(errors);
    }
    if let Some(errors) = singles(tables, s) {
        return Some(errors);
    }
    if let Some(errors) = pairs(tables, s) {
        return Some(errors);
    }
    triples(tables, s)
}

// Tries each place: the first whose error has the sums.
fn singles(tables: &Tables, s: [u8; 6]) -> Option<[Error; 3]>
    ensures { Settles (FirstOf 1 s) (NoneFrom 1 0 [] s) s result }
{
    let mut tried = None;
    'singles: for i in 0..254 {
        tried = solver::one_place(tables, s, i);
        if tried.is_some() {
            break 'singles;
        }
    }
    tried
}

// Tries each pair of places: the first whose errors have the sums.
fn pairs(tables: &Tables, s: [u8; 6]) -> Option<[Error; 3]>
    ensures { Settles (FirstOf 2 s) (NoneFrom 2 0 [] s) s result }
{
    let mut tried = None;
    'pairs: for i in 0..254 {
        for j in i + 1..254 {
            tried = solver::two_places(tables, s, i, j);
            if tried.is_some() {
                break 'pairs;
            }
        }
    }
    tried
}

// Tries each triple of places: the first whose errors have the sums.
fn triples(tables: &Tables, s: [u8; 6]) -> Option<[Error; 3]>
    ensures { Settles (FirstOf 3 s) (NoneFrom 3 0 [] s) s result }
{
    let mut tried = None;
    'triples: for i in 0..254 {
        for j in i + 1..254 {
            for k in j + 1..254 {
                tried = solver::three_places(tables, s, i, j, k);
                if tried.is_some() {
                    break 'triples;
                }
            }
        }
    }
    tried
}
