// The six sums of a block, and errors at given places. Sum m, from 0 to 5, is the block's value at 2^m. Those of a codeword are 0, so the sums
// of what was delivered are those of its errors: an error y at the place with the element x adds y x^m. To kill a place is to add x times
// each sum to the next one: its error is then gone, and each other one is multiplied by what the two elements differ by. So the errors at
// given places are solved for by killing the others. They are believed where they have all six sums. The tables of the field are lent by the caller,
// once for the whole repair; the sums, which are those of one block, go beside them.
// `search` works out sums too, and shares none of this: it is held against what stands here.
ghost use Rattle.std.specs.Prelude.{◌≡◌, [], ◌∷◌, ◌<◌};
ghost use Rattle.gf256.specs.Field.{◌⊕◌, ◌⊗◌};
ghost use Rattle.rs.specs.Polynomial.{value_at};
ghost use Rattle.plain.specs.Plain.{Sums, element, Solves, Unexplained, Has, Judges, values_of, Stands, Settles};

use crate::errors::Error;
use gf256::Tables;

// The element of a place: the power of 2 that goes with its byte, 2^253 with the first and 1 with the last.
fn element(tables: &Tables, i: usize) -> u8
    requires { i < 254 }
    ensures { result ≡ element i }
{
    tables.power(253 - i)
}

// The value at x of a block, by Horner's rule.
fn value(tables: &Tables, block: &[u8], x: u8) -> u8
    ensures { result ≡ value_at x block.now }
{
    let mut v = 0;
    for byte in block {
        v = gf256::sum(tables.product(v, x), *byte);
    }
    v
}

// The six sums of a block.
pub(crate) fn sums(tables: &Tables, block: &[u8]) -> [u8; 6]
    ensures { Sums block.now result }
{
    let mut s = [0; 6];
    for m in 0..6 {
        s[m] = value(tables, block, tables.power(m));
    }
    s
}

// What is left of two sums that follow each other once the place x is killed.
fn killed(tables: &Tables, s: u8, t: u8, x: u8) -> u8
    ensures { result ≡ t ⊕ x ⊗ s }
{
    gf256::sum(t, tables.product(x, s))
}

// The values at y and z by the first two sums. With y killed the one at z is alone, times z + y; the one at y is what it leaves of the first
// sum.
fn two(tables: &Tables, s: u8, t: u8, y: u8, z: u8) -> [u8; 2]
    requires { y ≡ z → ⊥ }
    ensures { Solves (y ∷ z ∷ []) (s ∷ t ∷ []) result }
{
    let c = tables.quotient(killed(tables, s, t, y), gf256::sum(z, y));
    [gf256::sum(s, c), c]
}

// The values at x, y and z by the first three sums. With x killed those at y and z are left, times y + x and z + x; the one at x is what they
// leave of the first sum.
fn three(tables: &Tables, s: u8, t: u8, u: u8, x: u8, y: u8, z: u8) -> [u8; 3]
    requires { (x ≡ y → ⊥) × (x ≡ z → ⊥) × (y ≡ z → ⊥) }
    ensures { Solves (x ∷ y ∷ z ∷ []) (s ∷ t ∷ u ∷ []) result }
{
    let p = killed(tables, s, t, x);
    let q = killed(tables, t, u, x);
    let left = two(tables, p, q, y, z);
    let b = tables.quotient(left[0], gf256::sum(y, x));
    let c = tables.quotient(left[1], gf256::sum(z, x));
    [gf256::sum(s, gf256::sum(b, c)), b, c]
}

// The values of errors.
fn values(errors: [Error; 3]) -> [u8; 3]
    ensures { result ≡ values_of errors }
{
    let [d, e, f] = errors;
    [d.value, e.value, f.value]
}

// Do the errors have all six sums? In turn m, the parts are their values, each times its element to the power m.
#[inline(always)]
fn explained(tables: &Tables, s: [u8; 6], errors: [Error; 3]) -> bool
    ensures { Judges s errors result }
{
    let [d, e, f] = errors;
    let x = element(tables, d.place);
    let y = element(tables, e.place);
    let z = element(tables, f.place);
    let mut parts = values(errors);
    for sum in s.iter() {
        if *sum != gf256::sum(parts[0], gf256::sum(parts[1], parts[2])) {
            return false;
        }
        parts = [
            tables.product(parts[0], x),
            tables.product(parts[1], y),
            tables.product(parts[2], z),
        ];
    }
    true
}

// The errors, where they have all six sums.
#[inline(always)]
fn judged(tables: &Tables, s: [u8; 6], errors: [Error; 3]) -> Option<[Error; 3]>
    ensures { Settles (λ es. es ≡ errors) (Has s errors → ⊥) s result }
{
    explained(tables, s, errors).then_some(errors)
}

// The try of no place: the block is a codeword.
pub(crate) fn no_place(tables: &Tables, s: [u8; 6]) -> Option<[Error; 3]>
    ensures { Settles (Stands []) (Unexplained [] s) s result }
{
    let none = Error { place: 0, value: 0 };
    judged(tables, s, [none, none, none])
}

// The try of one place: the error is the first sum.
pub(crate) fn one_place(tables: &Tables, s: [u8; 6], i: usize) -> Option<[Error; 3]>
    requires { i < 254 }
    ensures { Settles (Stands (i ∷ [])) (Unexplained (i ∷ []) s) s result }
{
    let none = Error { place: i, value: 0 };
    let one = Error {
        place: i,
        value: s[0],
    };
    judged(tables, s, [none, none, one])
}

// The try of two places.
pub(crate) fn two_places(tables: &Tables, s: [u8; 6], i: usize, j: usize) -> Option<[Error; 3]>
    requires { (i < j) × (j < 254) }
    ensures { Settles (Stands (i ∷ j ∷ [])) (Unexplained (i ∷ j ∷ []) s) s result }
{
    let v = two(tables, s[0], s[1], element(tables, i), element(tables, j));
    let none = Error { place: i, value: 0 };
    let one = Error {
        place: i,
        value: v[0],
    };
    let other = Error {
        place: j,
        value: v[1],
    };
    judged(tables, s, [none, one, other])
}

// The try of three places.
pub(crate) fn three_places(
    tables: &Tables,
    s: [u8; 6],
    i: usize,
    j: usize,
    k: usize,
) -> Option<[Error; 3]>
    requires { (i < j) × (j < k) × (k < 254) }
    ensures { Settles (Stands (i ∷ j ∷ k ∷ [])) (Unexplained (i ∷ j ∷ k ∷ []) s) s result }
{
    let x = element(tables, i);
    let y = element(tables, j);
    let z = element(tables, k);
    let v = three(tables, s[0], s[1], s[2], x, y, z);
    let first = Error {
        place: i,
        value: v[0],
    };
    let second = Error {
        place: j,
        value: v[1],
    };
    let third = Error {
        place: k,
        value: v[2],
    };
    judged(tables, s, [first, second, third])
}
