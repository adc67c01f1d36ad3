// The search for errors where some places are marked: the marked places, the others in which there can be errors, and the errors at all of them.
ghost use Rattle.std.specs.Prelude.{◌≡◌, map, ◌<◌};
ghost use Rattle.search.specs.Marked.{confessed};
ghost use Rattle.search.specs.SearchMarked.{flag_of, marks_by, FewMarks, OneMore, Locates, SolvedMarked};

use crate::errors::{Error, Marks, Place};
use crate::{solver, values};
use gf256::Tables;

// 1 for a word that is not sound, which is one that is not the word of its own low byte.
fn flag(word: u16) -> u8
    ensures { result ≡ flag_of word }
{
    u8::from(word != anc::word_of((word % 256) as u8))
}

// The flag of each word. With no early return, so that the words can be taken many at a time.
fn flags(words: &[u16; 254], out: &mut [u8; 254])
    ensures { out.new ≡ map flag_of words.now }
{
    for (i, word) in words.iter().enumerate() {
        out[i] = flag(*word);
    }
}

// The places whose flag is up, where they are one to six.
fn collect(flags: &[u8; 254]) -> Option<Marks>
    ensures { FewMarks (marks_by flags.now) result }
{
    let mut places = [Place { exponent: 0 }; 6];
    let mut count = 0;
    for (i, flag) in flags.iter().enumerate() {
        if *flag != 0 {
            if count < 6 {
                places[count] = Place { exponent: 253 - i };
            }
            count += 1;
        }
    }
    if count == 0 || 6 < count {
        return None;
    }
    Some(Marks { count, places })
}

// The places that the words mark, where they are one to six.
pub(crate) fn marks_of(words: &[u16; 254]) -> Option<Marks>
    ensures { FewMarks (confessed words.now) result }
{
    let mut raised = [0; 254];
    flags(words, &mut raised);
    collect(&raised)
}

// The same places and one more.
fn with_one(marks: Marks, place: Place) -> Marks
    requires { marks.count < 6 }
    ensures { OneMore marks place.exponent result }
{
    let mut places = marks.places;
    places[marks.count] = place;
    Marks {
        count: marks.count + 1,
        places,
    }
}

// The marked places, and behind them those of the errors elsewhere, at most (6 - f) / 2, that the sums allow which are left once the marked places are
// killed. Two such errors have a determinant, and one has a first sum.
fn located(tables: &Tables, s: [u8; 6], marks: Marks) -> Marks
    ensures { Locates s marks result }
{
    let f = marks.count;
    let left = values::kill_places(tables, s, marks).left;
    let first = left[0];
    let determinant = solver::cross(tables, first, left[2], left[1], left[1]);
    if (f <= 2) & (determinant != 0) {
        let Some(two) = solver::two_errors(tables, left, 6 - f) else {
            return marks;
        };
        return with_one(with_one(marks, two[0].place), two[1].place);
    }
    if (f <= 4) & (first != 0) {
        let Some(one) = solver::one_error(tables, left) else {
            return marks;
        };
        return with_one(marks, one[0].place);
    }
    marks
}

// Errors at the marked places, and at those of at most (6 - f) / 2 errors elsewhere: where any have the six sums, these do.
pub(crate) fn find_marked(tables: &Tables, s: [u8; 6], marks: Marks) -> [Error; 6]
    ensures { SolvedMarked s marks result }
{
    let all = located(tables, s, marks);
    let values = values::values(tables, s, all);
    let mut errors = [Error {
        place: all.places[0],
        value: 0,
    }; 6];
    for i in 0..6 {
        errors[i] = Error {
            place: all.places[i],
            value: values[i],
        };
    }
    errors
}
