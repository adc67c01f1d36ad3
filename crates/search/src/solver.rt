// The search for at most three errors by the six sums of what was delivered. Each solver gives what the errors must be if there are so
// many; their own sums then tell whether they are. The tables of the field are lent by the caller, once for the whole repair, and the sums go beside
// them, since they are others once a place is killed.
ghost use Rattle.std.specs.Prelude.{◌≡◌, true, ◌<◌, ◌≤◌};
ghost use Rattle.gf256.specs.Field.{◌⊕◌, ◌⊗◌};
ghost use Rattle.rs.specs.Polynomial.{value_at};
ghost use Rattle.search.specs.Search.{killed_of, Steps, locator_two, locator_three, TopRoot, IsPlace, minor_of, terms_of, Explains, Adds, FindsOne, FindsTwo, FindsThree, Held, sums_of};

use crate::errors::{Error, Place};
use gf256::Tables;

// The polynomial x^3 + a x^2 + b x + c whose roots are the places; c is 0 for two.
#[derive(Clone, Copy)]
struct Locator {
    a: u8,
    b: u8,
    c: u8,
}

// a + b + c
fn sum3(a: u8, b: u8, c: u8) -> u8
    ensures { result ≡ a ⊕ b ⊕ c }
{
    gf256::sum(gf256::sum(a, b), c)
}

// a + x b
fn plus_times(tables: &Tables, a: u8, x: u8, b: u8) -> u8
    ensures { result ≡ a ⊕ x ⊗ b }
{
    gf256::sum(a, tables.product(x, b))
}

// a b + c d
pub(crate) fn cross(tables: &Tables, a: u8, b: u8, c: u8, d: u8) -> u8
    ensures { result ≡ a ⊗ b ⊕ c ⊗ d }
{
    gf256::sum(tables.product(a, b), tables.product(c, d))
}

// The determinant of three columns, each of three sums that follow one another: from the i-th, from the j-th and from the k-th on.
#[tactic(auto, unfolding(crate::specs::Search::determinant))]
fn minor(tables: &Tables, s: [u8; 6], i: usize, j: usize, k: usize) -> u8
    requires { (i < 4) × (j < 4) × (k < 4) }
    ensures { result ≡ minor_of s i j k }
{
    let first = cross(tables, s[j + 1], s[k + 2], s[j + 2], s[k + 1]);
    let second = cross(tables, s[i + 1], s[k + 2], s[i + 2], s[k + 1]);
    let third = cross(tables, s[i + 1], s[j + 2], s[i + 2], s[j + 1]);
    gf256::sum(
        tables.product(s[i], first),
        gf256::sum(tables.product(s[j], second), tables.product(s[k], third)),
    )
}

// The value at x of the polynomial of six bytes, by Horner's rule.
fn value(tables: &Tables, bytes: [u8; 6], x: u8) -> u8
    ensures { result ≡ value_at x bytes }
{
    let mut v = 0;
    for byte in bytes.iter() {
        v = gf256::sum(tables.product(v, x), *byte);
    }
    v
}

// The six sums of six bytes: their values at the powers 0 to 5 of 2.
pub(crate) fn sums(tables: &Tables, bytes: [u8; 6]) -> [u8; 6]
    ensures { result ≡ sums_of bytes }
{
    let mut s = [0; 6];
    for j in 0..6 {
        s[j] = value(tables, bytes, tables.power(j));
    }
    s
}

// Kills the place x: of six sums five are left, and a 0.
pub(crate) fn kill(tables: &Tables, s: &mut [u8; 6], x: u8)
    ensures { s.new ≡ killed_of x s.old }
{
    for j in 0..5 {
        s[j] = plus_times(tables, s[j + 1], x, s[j]);
    }
    s[5] = 0;
}

// Do the n sums from the fifth on go on by a and b? (Those before them do, by how a and b are worked out.)
fn steps(tables: &Tables, s: [u8; 6], n: usize, a: u8, b: u8) -> bool
    requires { (2 ≤ n) × (n ≤ 6) }
    ensures { Steps n a b s → result ≡ true }
{
    for j in 2..n - 2 {
        if s[j + 2] != cross(tables, a, s[j + 1], b, s[j]) {
            return false;
        }
    }
    true
}

// The greatest place that is a root of the locator. One sum of three powers tells a root, since with the logarithms of a and c in
// hand x^2 + a x + c / x has indices that are linear in the exponent.
fn top_root(tables: &Tables, l: Locator) -> Option<Place>
    ensures { TopRoot l result }
{
    let la = tables.log(l.a).unwrap_or(510);
    let lc = tables.log(l.c).unwrap_or(510);
    let wheel = tables.wheel();
    for k in (0..254).rev() {
        if sum3(wheel[k + k], wheel[la + k], wheel[lc + 255 - k]) == l.b {
            return Some(Place { exponent: k });
        }
    }
    None
}

// The place that is an element of the field.
fn place_of(tables: &Tables, x: u8) -> Option<Place>
    ensures { IsPlace x result }
{
    let k = tables.log(x)?;
    if k < 254 {
        Some(Place { exponent: k })
    } else {
        None
    }
}

// One error: its place is the ratio of the first two sums, its value the first.
pub(crate) fn one_error(tables: &Tables, s: [u8; 6]) -> Option<[Error; 1]>
    ensures { FindsOne s result }
{
    let place = place_of(tables, tables.quotient(s[1], s[0]))?;
    Some([Error { place, value: s[0] }])
}

// The locator of two errors, from four sums in closed form.
#[tactic(auto, unfolding(crate::specs::Search::locator_two))]
fn locator_two(tables: &Tables, s: [u8; 6]) -> Locator
    ensures { result ≡ locator_two s }
{
    let [s0, s1, s2, s3, _, _] = s;
    let d = cross(tables, s0, s2, s1, s1);
    let a = cross(tables, s0, s3, s1, s2);
    let b = cross(tables, s1, s3, s2, s2);
    Locator {
        a: tables.quotient(a, d),
        b: tables.quotient(b, d),
        c: 0,
    }
}

// The locator of three errors: the minors of the Hankel matrix of the six sums, over the first.
#[tactic(auto, unfolding(crate::specs::Search::locator_three))]
fn locator_three(tables: &Tables, s: [u8; 6]) -> Locator
    ensures { result ≡ locator_three s }
{
    let d = minor(tables, s, 0, 1, 2);
    Locator {
        a: tables.quotient(minor(tables, s, 0, 1, 3), d),
        b: tables.quotient(minor(tables, s, 0, 2, 3), d),
        c: tables.quotient(minor(tables, s, 1, 2, 3), d),
    }
}

// Two errors by n sums: the first place is the greatest root of the locator, the other is the rest of their sum.
pub(crate) fn two_errors(tables: &Tables, s: [u8; 6], n: usize) -> Option<[Error; 2]>
    requires { (4 ≤ n) × (n ≤ 6) }
    ensures { FindsTwo n s result }
{
    let l = locator_two(tables, s);
    if !steps(tables, s, n, l.a, l.b) {
        return None;
    }
    let first = top_root(tables, l)?;
    let z = gf256::sum(first.element(tables), l.a);
    let second = place_of(tables, z)?;
    let y = tables.quotient(plus_times(tables, s[1], z, s[0]), l.a);
    Some([
        Error {
            place: first,
            value: y,
        },
        Error {
            place: second,
            value: gf256::sum(s[0], y),
        },
    ])
}

// Three errors: the first place is the greatest root of the locator; with it killed, two errors are left.
pub(crate) fn three_errors(tables: &Tables, s: [u8; 6]) -> Option<[Error; 3]>
    ensures { FindsThree s result }
{
    let first = top_root(tables, locator_three(tables, s))?;
    let x = first.element(tables);
    let mut rest = s;
    kill(tables, &mut rest, x);
    let left = two_errors(tables, rest, 5)?;
    let second = left[0].place;
    let third = left[1].place;
    let y = tables.quotient(left[0].value, gf256::sum(x, second.element(tables)));
    let z = tables.quotient(left[1].value, gf256::sum(x, third.element(tables)));
    Some([
        Error {
            place: first,
            value: sum3(s[0], y, z),
        },
        Error {
            place: second,
            value: y,
        },
        Error {
            place: third,
            value: z,
        },
    ])
}

// Adds to each of six sums the part of a value at the place x: in the j-th it is the value times x^j.
fn add_part(tables: &Tables, sums: &mut [u8; 6], x: u8, value: u8)
    ensures { Adds x value sums.old sums.new }
{
    let mut part = value;
    for sum in sums.iter_mut() {
        *sum = gf256::sum(*sum, part);
        part = tables.product(part, x);
    }
}

// The six sums of errors.
pub(crate) fn power_sums(tables: &Tables, errors: &[Error]) -> [u8; 6]
    ensures { Explains 6 (terms_of errors.now) result }
{
    let mut sums = [0; 6];
    for e in errors {
        add_part(tables, &mut sums, e.place.element(tables), e.value);
    }
    sums
}

// Do the errors have the six sums?
pub(crate) fn explained(tables: &Tables, s: [u8; 6], errors: &[Error]) -> bool
    ensures { Held s errors.now result }
{
    power_sums(tables, errors) == s
}
