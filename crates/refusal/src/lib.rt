// The refusals: why a call says no, and at which byte. A call that can be refused answers with one in a Result, and its checks follow one
// another by `?`; desk and follower, which are handed back, answer with it beside them.
#![tactic(auto)]

ghost use Rattle.std.specs.Prelude.{◌≡◌};
ghost use Rattle.refusal.specs.Number.{number_of, bits_of, bits_in, refusal_at, refusal_plain};
ghost use Rattle.refusal.specs.Chain.{require, passed};
ghost use Rattle.refusal.specs.Checked.{checked_of};

// What is wrong with a word that is not sound: b8, b9 or both are not what b0 to b7 call for.
#[derive(Clone, Copy, Debug, PartialEq, Eq)]
pub enum Wrong {
    B8,
    B9,
    Both,
}

// One case for each number on the fixed list, in the list's order. PARITY, and no other, says what is wrong with the word.
#[derive(Clone, Copy, Debug, PartialEq, Eq)]
pub enum Reason {
    Length,
    Wide,
    Flag,
    Kind,
    Count,
    Header,
    Parity(Wrong),
    Fill,
    BeyondRepair,
    Checksum,
    Station,
    Time,
    Picture,
    Sound,
    ReservedArea,
    Item,
    Size,
    NothingToUndo,
    Room,
    FieldLength,
    FieldHead,
    Index,
    OffRetired,
}

// A refusal: its reason, which has the number, and its place, 0 where the list gives none.
#[derive(Clone, Copy, Debug, PartialEq, Eq)]
pub struct Refusal {
    pub reason: Reason,
    pub place: u8,
}

// The number that the fixed list gives a reason.
impl From<Reason> for u8 {
    ghost from_gives = { λ reason n. n ≡ number_of reason };

    #[tactic(auto, unfolding(crate::specs::Number::number_of))]
    fn from(reason: Reason) -> u8 {
        match reason {
            Reason::Length => 1,
            Reason::Wide => 2,
            Reason::Flag => 3,
            Reason::Kind => 4,
            Reason::Count => 5,
            Reason::Header => 6,
            Reason::Parity(_) => 7,
            Reason::Fill => 8,
            Reason::BeyondRepair => 9,
            Reason::Checksum => 10,
            Reason::Station => 11,
            Reason::Time => 12,
            Reason::Picture => 13,
            Reason::Sound => 14,
            Reason::ReservedArea => 15,
            Reason::Item => 20,
            Reason::Size => 21,
            Reason::NothingToUndo => 22,
            Reason::Room => 23,
            Reason::FieldLength => 25,
            Reason::FieldHead => 26,
            Reason::Index => 27,
            Reason::OffRetired => 41,
        }
    }
}

// What is wrong with a word, as a number: 1 is b8, 2 is b9, 3 is both.
impl From<Wrong> for u8 {
    ghost from_gives = { λ wrong n. n ≡ bits_of wrong };

    #[tactic(auto, unfolding(crate::specs::Number::bits_of))]
    fn from(wrong: Wrong) -> u8 {
        match wrong {
            Wrong::B8 => 1,
            Wrong::B9 => 2,
            Wrong::Both => 3,
        }
    }
}

// The bits that a reason carries: those of the word where it is PARITY, else 0. No `From`: the number that a reason becomes is its own one.
#[tactic(auto, unfolding(crate::specs::Number::bits_in))]
pub fn bits_in(reason: Reason) -> u8
    ensures { result ≡ bits_in reason }
{
    match reason {
        Reason::Parity(wrong) => u8::from(wrong),
        _ => 0,
    }
}

// A refusal whose place is 0.
pub fn plain(reason: Reason) -> Refusal
    ensures { result ≡ refusal_plain reason }
{
    at(reason, 0)
}

// A refusal that says where.
pub fn at(reason: Reason, place: u8) -> Refusal
    ensures { result ≡ refusal_at reason place }
{
    Refusal { reason, place }
}

// A check: where it fails, `why` is the refusal. The checks of a call follow one another by `?`, so that the first that fails is its answer.
pub fn require(ok: bool, why: Refusal) -> Result<(), Refusal>
    ensures { result ≡ checked_of (require ok why passed) }
{
    if ok { Ok(()) } else { Err(why) }
}
