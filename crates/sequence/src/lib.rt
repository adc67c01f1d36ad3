// How a packet stands to the one accepted before it: the step from its index, whether the record is equal, its kind, and what was missed.
#![tactic(auto)]

pub mod counts;
pub mod onsets;

ghost use Rattle.std.specs.Prelude.{◌≡◌};
ghost use Rattle.basics.specs.Each.{same as equal};
ghost use Rattle.sequence.specs.Sequence.{step_of, kind_of, missed_of};

// How a packet stands to the one accepted before it.
#[derive(Clone, Copy, Debug, PartialEq, Eq)]
pub enum Kind {
    First,
    Next,
    Repeat,
    Conflict,
}

// The new index less the last one, modulo 16.
#[tactic(auto, unfolding(crate::specs::Sequence::step_of))]
pub fn step_of(last: u8, new: u8) -> u8
    ensures { result ≡ step_of last new }
{
    new.wrapping_sub(last) % 16
}

// Do both hold the same bytes?
pub fn same(a: &[u8], b: &[u8]) -> bool
    ensures { result ≡ equal a.now b.now }
{
    a == b
}

// The first; then by d, and by whether the record is the one held.
#[tactic(auto, unfolding(crate::specs::Sequence::kind_of))]
pub fn kind_of(started: bool, d: u8, equal: bool) -> Kind
    ensures { result ≡ kind_of started d equal }
{
    match (started, d, equal) {
        (false, _, _) => Kind::First,
        (true, 0, true) => Kind::Repeat,
        (true, 0, false) => Kind::Conflict,
        (true, _, _) => Kind::Next,
    }
}

// How many packets went by unheard.
pub fn missed_of(kind: Kind, d: u8) -> u8
    ensures { result ≡ missed_of kind d }
{
    match kind {
        Kind::Next => d.saturating_sub(1),
        Kind::First | Kind::Repeat | Kind::Conflict => 0,
    }
}
