// The follower: the receiver's two records and counts. Each packet is the first one, the next one, a repeat or a conflict, or it is refused.
#![tactic(auto)]

ghost use Rattle.std.specs.Prelude.{◌≡◌, cond, length};
ghost use Rattle.basics.specs.Each.{same};
ghost use Rattle.sequence.specs.declared.Kind.TheVariants.{Repeat};
ghost use Rattle.sequence.specs.Sequence.{kind_of};
ghost use Rattle.refusal.specs.Checked.{checked_of};
ghost use Rattle.follower.specs.Follower.{step_to, before_again, held_by, follower_after, accepts, refused_after, followed, opened, shown_by, shown_refusal, shown_leaves};

use reading::Packet;
use refusal::{Reason, Refusal};
use sequence::{Kind, counts, onsets};

// What an accepted packet brings: its kind, its index, how many of its words were fixed, how many packets were missed before it, and
// the triggers that it sets, Q1 in bit 0 to Q32 in bit 31.
#[derive(Clone, Copy, Debug, PartialEq, Eq)]
pub struct Arrival {
    pub kind: Kind,
    pub ci: u8,
    pub fixed: u8,
    pub missed: u8,
    pub onsets: u32,
}

// The record at the last position and its index, the record before it, and whether the two were successive: the one at the position arrived
// as NEXT with nothing missed.
#[repr(C)]
#[derive(Clone, Copy, Debug, PartialEq, Eq)]
pub struct Held {
    pub at: [u8; 248],
    pub ci: u8,
    pub before: [u8; 248],
    pub successive: bool,
}

// Has a packet been accepted; the two records; `back`: is the one before shown, and not the one at the position? And the counts, which stop at the
// ceiling. A follower crosses to C as it lies in memory, so `started`, `successive` and `back` are flags, and what stands beside them is no Option.
#[repr(C)]
#[derive(Clone, Copy, Debug, PartialEq, Eq)]
pub struct Follower {
    pub started: bool,
    pub held: Held,
    pub back: bool,
    pub accepted: u32,
    pub repeated: u32,
    pub conflicting: u32,
    pub missed: u32,
    pub refused: u32,
}

// The follower handed back, and what it heard.
#[derive(Clone, Copy, Debug, PartialEq, Eq)]
pub struct Followed {
    pub follower: Follower,
    pub heard: Result<Arrival, Refusal>,
}

impl Held {
    // What is held after an arrival, by its kind.
    fn after(self, arrival: Arrival, arrived: [u8; 248]) -> Self
        ensures { result ≡ held_by arrival.kind self arrival arrived }
    {
        let last = self.at;
        match arrival.kind {
            Kind::First => Held {
                at: arrived,
                ci: arrival.ci,
                before: [0; 248],
                successive: false,
            },
            Kind::Next => Held {
                at: arrived,
                ci: arrival.ci,
                before: last,
                successive: arrival.missed == 0,
            },
            Kind::Repeat => self,
            Kind::Conflict => Held {
                at: arrived,
                ci: arrival.ci,
                ..self
            },
        }
    }
}

impl Follower {
    pub const CEILING: u32 = u32::MAX;

    // Nothing has arrived.
    #[tactic(auto, unfolding(crate::specs::Follower::opened))]
    pub fn open() -> Self
        ensures { result ≡ opened }
    {
        Follower {
            started: false,
            held: Held {
                at: [0; 248],
                ci: 0,
                before: [0; 248],
                successive: false,
            },
            back: false,
            accepted: 0,
            repeated: 0,
            conflicting: 0,
            missed: 0,
            refused: 0,
        }
    }

    // Takes a packet in. A refusal changes the count of refusals alone.
    pub fn follow(self, words: &[u16]) -> Followed
        ensures { result ≡ followed self words.now }
    {
        let mut arrived = [0; 248];
        match reading::read_packet_into(words, &mut arrived) {
            Ok(packet) => self.accept(packet, arrived),
            Err(why) => Followed {
                follower: self.refuse(),
                heard: Err(why),
            },
        }
    }

    // The record shown: the one that arrived last, which is one of the two.
    #[tactic(auto, unfolding(crate::specs::Follower::shown_by))]
    pub fn shown(self) -> [u8; 248]
        ensures { result ≡ shown_by self }
    {
        if self.back {
            self.held.before
        } else {
            self.held.at
        }
    }

    // The record shown, into lent room. A refusal leaves `out` as it was.
    #[tactic(auto, unfolding(crate::specs::Follower::shown_refusal, crate::specs::Follower::shown_leaves))]
    pub fn shown_into(self, out: &mut [u8]) -> Result<(), Refusal>
        ensures { (result ≡ checked_of (shown_refusal (length out.old))) × (out.new ≡ shown_leaves self out.old) }
    {
        refusal::require(out.len() == 248, refusal::plain(Reason::Room))?;
        out.copy_from_slice(&self.shown());
        Ok(())
    }

    // What follows on a packet that is accepted: what it brings is told against the record at the position. (The packet and its record go side by side,
    // here and below: reading hands out the one and fills the buffer of the other.)
    #[tactic(auto, unfolding(crate::specs::Follower::accepts, crate::specs::Follower::arrived_as, crate::specs::Follower::arrival_of, crate::specs::Follower::step_to))]
    fn accept(self, packet: Packet, arrived: [u8; 248]) -> Followed
        ensures { result ≡ accepts self packet arrived }
    {
        let again = self.before_again(packet, &arrived);
        let kind = self.kind(packet, again, &arrived);
        let step = sequence::step_of(self.held.ci, packet.ci);
        let old = self.held.at;
        let arrival = Arrival {
            kind,
            ci: packet.ci,
            fixed: packet.fixed,
            missed: sequence::missed_of(kind, step),
            onsets: onsets::onsets(self.started && !again, &old, &arrived),
        };
        Followed {
            follower: self.hold(arrival, again, arrived),
            heard: Ok(arrival),
        }
    }

    // Is the packet the one before again?
    #[tactic(auto, unfolding(crate::specs::Follower::step_to, crate::specs::Follower::before_again))]
    fn before_again(&self, packet: Packet, arrived: &[u8; 248]) -> bool
        ensures { result ≡ before_again self.now packet arrived.now }
    {
        self.started
            && self.held.successive
            && sequence::step_of(self.held.ci, packet.ci) == 15
            && sequence::same(&self.held.before, arrived)
    }

    // The packet's kind; `again` says whether it is the one before.
    #[tactic(auto, unfolding(crate::specs::Follower::step_to))]
    fn kind(&self, packet: Packet, again: bool, arrived: &[u8; 248]) -> Kind
        ensures { result ≡ cond again Repeat (kind_of self.now.started (step_to self.now packet) (same self.now.held.at arrived.now)) }
    {
        if again {
            return Kind::Repeat;
        }
        let step = sequence::step_of(self.held.ci, packet.ci);
        let equal = sequence::same(&self.held.at, arrived);
        sequence::kind_of(self.started, step, equal)
    }

    // The arrival is counted, and its record held and shown.
    #[tactic(auto, unfolding(crate::specs::Follower::follower_after, crate::specs::Follower::counted))]
    fn hold(self, arrival: Arrival, again: bool, arrived: [u8; 248]) -> Self
        ensures { result ≡ follower_after self arrival again arrived }
    {
        let kind = arrival.kind;
        Follower {
            started: true,
            held: self.held.after(arrival, arrived),
            back: again,
            accepted: self.accepted.saturating_add(1),
            repeated: self.repeated.saturating_add(counts::repeats(kind)),
            conflicting: self.conflicting.saturating_add(counts::conflicts(kind)),
            missed: self.missed.saturating_add(u32::from(arrival.missed)),
            refused: self.refused,
        }
    }

    // One more is refused, and nothing else changes.
    #[tactic(auto, unfolding(crate::specs::Follower::refused_after, crate::specs::Follower::counted))]
    fn refuse(self) -> Self
        ensures { result ≡ refused_after self }
    {
        Follower {
            refused: self.refused.saturating_add(1),
            ..self
        }
    }
}
