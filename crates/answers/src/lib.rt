// The plain structs that cross to C, and how an answer becomes one: an enum does not cross, so its number and its values do.
#![tactic(auto)]

ghost use Rattle.std.specs.Prelude.{◌≡◌};
ghost use Rattle.refusal.specs.Checked.{refusal_in};
ghost use Rattle.answers.specs.Answers.{refused_for, answer_by, refused_with, word_from, verdict_from, packet_from, repaired_from, field_from, turn_from, kind_number, followed_from};

use b40::Head;
use desk::{Desk, Turn};
use follower::{Followed, Follower};
use reading::Packet;
use refusal::{Refusal, Wrong};
use sequence::Kind;

const DONE: u8 = 0;

// Done, 0 and 0; or the number and the place of the refusal.
#[repr(C)]
#[derive(Clone, Copy, Debug, PartialEq, Eq)]
pub struct AyAnswer {
    pub number: u8,
    pub place: u8,
}

// The answer, and which bits of a word are wrong: 0 none, 1 b8, 2 b9, 3 both.
#[repr(C)]
#[derive(Clone, Copy, Debug, PartialEq, Eq)]
pub struct AyWord {
    pub number: u8,
    pub place: u8,
    pub bits: u8,
}

// The answer, and whether the bytes are a codeword, or false.
#[repr(C)]
#[derive(Clone, Copy, Debug, PartialEq, Eq)]
pub struct AyVerdict {
    pub number: u8,
    pub place: u8,
    pub codeword: bool,
}

// The answer, with 7 the wrong bits of the word at the place, and the packet that was accepted, or zeros.
#[repr(C)]
#[derive(Clone, Copy, Debug, PartialEq, Eq)]
pub struct AyPacket {
    pub number: u8,
    pub place: u8,
    pub bits: u8,
    pub correction: bool,
    pub ci: u8,
    pub fixed: u8,
}

// The answer, and how many words were fixed, or 0.
#[repr(C)]
#[derive(Clone, Copy, Debug, PartialEq, Eq)]
pub struct AyRepaired {
    pub number: u8,
    pub place: u8,
    pub fixed: u8,
}

// The answer, and what stands in a field before its words, or zeros.
#[repr(C)]
#[derive(Clone, Copy, Debug, PartialEq, Eq)]
pub struct AyField {
    pub number: u8,
    pub place: u8,
    pub yc: bool,
    pub line: u16,
    pub offset: u16,
}

// The desk handed back, and the answer.
#[repr(C)]
#[derive(Clone, Copy)]
pub struct AyTurn {
    pub desk: Desk,
    pub number: u8,
    pub place: u8,
}

// The follower handed back, the answer, with 7 the wrong bits of the word at the place, and what the packet brought, or zeros.
#[repr(C)]
#[derive(Clone, Copy, Debug, PartialEq, Eq)]
pub struct AyFollowed {
    pub follower: Follower,
    pub number: u8,
    pub place: u8,
    pub bits: u8,
    pub kind: u8,
    pub ci: u8,
    pub fixed: u8,
    pub missed: u8,
    pub onsets: u32,
}

// ---- an answer as its struct

// The number and the place of a refusal, and the wrong bits that it carries.
impl From<Refusal> for AyWord {
    ghost from_gives = { λ why answer. answer ≡ refused_with why };

    fn from(why: Refusal) -> Self {
        AyWord {
            number: u8::from(why.reason),
            place: why.place,
            bits: refusal::bits_in(why.reason),
        }
    }
}

// The number and the place of a refusal.
impl From<Refusal> for AyAnswer {
    ghost from_gives = { λ why answer. answer ≡ refused_for why };

    fn from(why: Refusal) -> Self {
        let AyWord { number, place, .. } = AyWord::from(why);
        AyAnswer { number, place }
    }
}

// Of a check.
impl From<Result<(), Refusal>> for AyAnswer {
    ghost from_gives = { λ checked answer. answer ≡ answer_by (refusal_in checked) };

    #[tactic(auto, unfolding(crate::specs::Answers::answer_by))]
    fn from(checked: Result<(), Refusal>) -> Self {
        match checked {
            Ok(()) => AyAnswer {
                number: DONE,
                place: 0,
            },
            Err(why) => AyAnswer::from(why),
        }
    }
}

// Of the word check.
impl From<Result<Option<Wrong>, Refusal>> for AyWord {
    ghost from_gives = { λ soundness answer. answer ≡ word_from soundness };

    #[tactic(auto, unfolding(crate::specs::Answers::word_from))]
    fn from(soundness: Result<Option<Wrong>, Refusal>) -> Self {
        match soundness {
            Ok(wrong) => AyWord {
                number: DONE,
                place: 0,
                bits: wrong.map_or(0, u8::from),
            },
            Err(why) => AyWord::from(why),
        }
    }
}

// Of the check of a codeword.
impl From<Result<bool, Refusal>> for AyVerdict {
    ghost from_gives = { λ verdict answer. answer ≡ verdict_from verdict };

    #[tactic(auto, unfolding(crate::specs::Answers::verdict_from))]
    fn from(verdict: Result<bool, Refusal>) -> Self {
        match verdict {
            Ok(codeword) => AyVerdict {
                number: DONE,
                place: 0,
                codeword,
            },
            Err(why) => {
                let AyAnswer { number, place } = AyAnswer::from(why);
                AyVerdict {
                    number,
                    place,
                    codeword: false,
                }
            }
        }
    }
}

// Of reading.
impl From<Result<Packet, Refusal>> for AyPacket {
    ghost from_gives = { λ reading answer. answer ≡ packet_from reading };

    #[tactic(auto, unfolding(crate::specs::Answers::packet_from))]
    fn from(reading: Result<Packet, Refusal>) -> Self {
        match reading {
            Ok(packet) => AyPacket {
                number: DONE,
                place: 0,
                bits: 0,
                correction: packet.correction,
                ci: packet.ci,
                fixed: packet.fixed,
            },
            Err(why) => {
                let AyWord {
                    number,
                    place,
                    bits,
                } = AyWord::from(why);
                AyPacket {
                    number,
                    place,
                    bits,
                    correction: false,
                    ci: 0,
                    fixed: 0,
                }
            }
        }
    }
}

// Of repair.
impl From<Result<u8, Refusal>> for AyRepaired {
    ghost from_gives = { λ repaired answer. answer ≡ repaired_from repaired };

    #[tactic(auto, unfolding(crate::specs::Answers::repaired_from))]
    fn from(repaired: Result<u8, Refusal>) -> Self {
        match repaired {
            Ok(fixed) => AyRepaired {
                number: DONE,
                place: 0,
                fixed,
            },
            Err(why) => {
                let AyAnswer { number, place } = AyAnswer::from(why);
                AyRepaired {
                    number,
                    place,
                    fixed: 0,
                }
            }
        }
    }
}

// Of unpacking.
impl From<Result<Head, Refusal>> for AyField {
    ghost from_gives = { λ unpacked answer. answer ≡ field_from unpacked };

    #[tactic(auto, unfolding(crate::specs::Answers::field_from))]
    fn from(unpacked: Result<Head, Refusal>) -> Self {
        match unpacked {
            Ok(head) => AyField {
                number: DONE,
                place: 0,
                yc: head.yc,
                line: head.line,
                offset: head.offset,
            },
            Err(why) => {
                let AyAnswer { number, place } = AyAnswer::from(why);
                AyField {
                    number,
                    place,
                    yc: false,
                    line: 0,
                    offset: 0,
                }
            }
        }
    }
}

// Of a turn of the desk.
impl From<Turn> for AyTurn {
    ghost from_gives = { λ turn answer. answer ≡ turn_from turn };

    #[tactic(auto, unfolding(crate::specs::Answers::turn_from))]
    fn from(turn: Turn) -> Self {
        let AyAnswer { number, place } = AyAnswer::from(turn.checked);
        AyTurn {
            desk: turn.desk,
            number,
            place,
        }
    }
}

// The number that a kind has for C. No `From`: the kind is of `sequence` and the number of the language, and C's numbers are of this crate.
#[tactic(auto, unfolding(crate::specs::Answers::kind_number))]
fn kind_number(kind: Kind) -> u8
    ensures { result ≡ kind_number kind }
{
    match kind {
        Kind::First => 1,
        Kind::Next => 2,
        Kind::Repeat => 3,
        Kind::Conflict => 4,
    }
}

// Of what a follower heard.
impl From<Followed> for AyFollowed {
    ghost from_gives = { λ followed answer. answer ≡ followed_from followed };

    #[tactic(auto, unfolding(crate::specs::Answers::heard_from, crate::specs::Answers::followed_from))]
    fn from(followed: Followed) -> Self {
        let Followed { follower, heard } = followed;
        match heard {
            Ok(arrival) => AyFollowed {
                follower,
                number: DONE,
                place: 0,
                bits: 0,
                kind: kind_number(arrival.kind),
                ci: arrival.ci,
                fixed: arrival.fixed,
                missed: arrival.missed,
                onsets: arrival.onsets,
            },
            Err(why) => {
                let AyWord {
                    number,
                    place,
                    bits,
                } = AyWord::from(why);
                AyFollowed {
                    follower,
                    number,
                    place,
                    bits,
                    kind: 0,
                    ci: 0,
                    fixed: 0,
                    missed: 0,
                    onsets: 0,
                }
            }
        }
    }
}
