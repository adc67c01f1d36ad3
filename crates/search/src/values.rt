// Up to six places with values: what is left of the sums once places are killed, and the values that the sums allow at given places.
ghost use Rattle.std.specs.Prelude.{◌≡◌};
ghost use Rattle.search.specs.Values.{exponents, KillsAll, Unscaled, sum_of, FindsValues};

use crate::errors::{Marks, Place};
use crate::solver;
use gf256::Tables;

// What killing places one after the other leaves: the first sum before each of them was killed, and the sums at the end.
#[derive(Clone, Copy)]
pub(crate) struct Killed {
    pub(crate) firsts: [u8; 6],
    pub(crate) left: [u8; 6],
}

// Kills the places, one after the other.
pub(crate) fn kill_places(tables: &Tables, s: [u8; 6], marks: Marks) -> Killed
    ensures { KillsAll marks.count (exponents marks.places) s result }
{
    let mut firsts = [0; 6];
    let mut left = s;
    for i in 0..marks.count {
        firsts[i] = left[0];
        solver::kill(tables, &mut left, marks.places[i].element(tables));
    }
    Killed { firsts, left }
}

// The sum of six bytes.
fn sum_of(v: [u8; 6]) -> u8
    ensures { result ≡ sum_of v }
{
    let mut total = 0;
    for y in v.iter() {
        total = gf256::sum(total, *y);
    }
    total
}

// Takes the values at the places to what they were before the place x was killed; at x itself to 0.
fn unscale(tables: &Tables, x: u8, places: [Place; 6], v: &mut [u8; 6])
    ensures { Unscaled 6 x (exponents places) v.old v.new }
{
    for i in 0..6 {
        v[i] = tables.quotient(v[i], gf256::sum(places[i].element(tables), x));
    }
}

// The values at the places that as many of the sums allow, and zeros behind them. The last place is alone once all others are killed; then, from the
// last to the first, the values behind a place are those before it was killed, and its own is what they leave of the first sum.
pub(crate) fn values(tables: &Tables, s: [u8; 6], marks: Marks) -> [u8; 6]
    ensures { FindsValues marks.count s (exponents marks.places) result }
{
    let places = marks.places;
    let firsts = kill_places(tables, s, marks).firsts;
    let mut v = [0; 6];
    for i in (0..marks.count).rev() {
        unscale(tables, places[i].element(tables), places, &mut v);
        v[i] = gf256::sum(firsts[i], sum_of(v));
    }
    v
}
