// The desk: the sender's record with its history. Opening hands it out with an answer; each call after that takes the desk, checks what it is
// given, and hands the desk back with the answer. A refusal hands it back as it was.
#![tactic(auto)]

ghost use Rattle.std.specs.Prelude.{◌≡◌, Ok, Err, length};
ghost use Rattle.desk.specs.Desk.{opening, opened, edited, undone, sent, send_leaves};

use refusal::{Reason, Refusal, plain, require};
use steps::Step;

// The record's bytes, the index CI of the next packet, and the steps, the oldest first, with their count. It crosses to C as it lies in memory, so
// that the steps are an array of a fixed length with their count beside it.
#[repr(C)]
#[derive(Clone, Copy, Debug, PartialEq, Eq)]
pub struct Desk {
    pub bytes: [u8; 248],
    pub ci: u8,
    pub steps: [Step; Desk::DEPTH],
    pub count: u8,
}

// What a call answers: the desk handed back, and the check. No Result of a desk, since a refusal hands it back too; so it crosses to C, by value.
#[derive(Clone, Copy, Debug, PartialEq, Eq)]
pub struct Turn {
    pub desk: Desk,
    pub checked: Result<(), Refusal>,
}

impl Desk {
    // How many steps the history holds.
    pub const DEPTH: usize = Step::DEPTH;

    // How many words a packet has.
    pub const WORDS: usize = 262;

    // How many bytes a step has room for: those of the longest item.
    pub const STEP: usize = Step::ROOM;

    // A desk with the opening record, CI 0 and no history. It sends with correction on: where off is asked for that is refused, beside the same
    // desk.
    #[tactic(auto, unfolding(crate::specs::Desk::opened, crate::specs::Desk::fresh_desk, crate::specs::Desk::open_refusal, crate::specs::Desk::no_step))]
    pub fn open(correction: bool) -> Turn
        ensures { result ≡ opened correction }
    {
        let none = Step {
            item: 0,
            old: [0; Desk::STEP],
        };
        Turn {
            desk: Desk {
                bytes: opening(),
                ci: 0,
                steps: [none; Desk::DEPTH],
                count: 0,
            },
            checked: require(correction, plain(Reason::OffRetired)),
        }
    }

    // Checks the bytes given for an item and stores them; what it had before is one step more.
    #[tactic(auto, unfolding(crate::specs::Desk::edited, record::specs::Stored::store_refusal, record::specs::Stored::store_leaves), using(crate::proofs::Laws::Calls::step_kept))]
    pub fn edit(self, item: u8, bytes: &[u8]) -> Turn
        ensures { result ≡ edited self item bytes.now }
    {
        let mut new = self.bytes;
        if let Err(why) = record::store_item(item, bytes, &mut new) {
            return self.refused(why);
        }
        let count = steps::held(self.count);
        let step = steps::step_of(item, &self.bytes).unwrap();
        Desk {
            bytes: new,
            steps: steps::push(self.steps, count, step),
            count: steps::count_on(count),
            ..self
        }
        .done()
    }

    // Puts back the bytes before the latest step, and takes the step away. CI stays.
    #[tactic(auto, unfolding(crate::specs::Desk::undone, crate::specs::Desk::undo_refusal, steps::specs::Steps::held_of))]
    pub fn undo(self) -> Turn
        ensures { result ≡ undone self }
    {
        let Some(left) = steps::held(self.count).checked_sub(1) else {
            return self.refused(plain(Reason::NothingToUndo));
        };
        let mut back = self.bytes;
        // one copy of them, which goes into the desk that is handed back: to look into those of `self` would copy it once more, also where it is refused
        let steps = self.steps;
        // a step of no item, made by hand, puts nothing back and is taken away
        let _ = steps::put_back(steps[usize::from(left)], &mut back);
        Desk {
            bytes: back,
            steps,
            count: left,
            ..self
        }
        .done()
    }

    // Writes the packet of the desk's bytes as they stand, with correction on and the present CI, and counts on from that, 15 to 0. They need no
    // check: those of a desk that was opened are always a record. A refusal leaves `out` as it was.
    #[tactic(auto, unfolding(crate::specs::Desk::sent, crate::specs::Desk::send_leaves, crate::specs::Desk::send_refusal, writing::specs::Written::layout_of, writing::specs::Written::layout_leaves, writing::specs::Writing::layout_refusal, writing::specs::Writing::given_refusal))]
    pub fn send(self, out: &mut [u16]) -> Turn
        ensures { (result ≡ sent self (length out.old)) × (out.new ≡ send_leaves self out.old) }
    {
        if out.len() != Desk::WORDS {
            return self.refused(plain(Reason::Room));
        }
        let ci = self.ci % 16;
        writing::write_layout(true, ci, &self.bytes, out).unwrap();
        Desk {
            ci: (ci + 1) % 16,
            ..self
        }
        .done()
    }

    // Handed back with nothing refused.
    fn done(self) -> Turn
        ensures { result ≡ record { desk = self; checked = Ok tt } }
    {
        Turn {
            desk: self,
            checked: Ok(()),
        }
    }

    // Handed back with what is refused.
    fn refused(self, why: Refusal) -> Turn
        ensures { result ≡ record { desk = self; checked = Err why } }
    {
        Turn {
            desk: self,
            checked: Err(why),
        }
    }
}

// What a desk opens with, stored over zeros. Six lines and no loop over a table: each line is computed, where a loop would ask for an invariant.
#[tactic(auto, unfolding(record::specs::Stored::store_refusal, record::specs::Stored::store_leaves, items::specs::Item::item_refusal, items::specs::Item::refused_in, items::specs::Item::row_of, items::specs::Items::items, items::specs::Item::put, items::specs::Item::clean_in, items::specs::Item::clean_of, items::specs::Item::put_in, items::specs::Item::put_item, rules::specs::Rules::station_rule, rules::specs::Rules::station_byte, rules::specs::Rules::time_rule, rules::specs::Rules::time_byte, rules::specs::Rules::decimal, basics::specs::Each::all, crate::specs::Desk::opening))]
fn opening() -> [u8; 248]
    ensures { result ≡ opening }
{
    let mut bytes = [0; 248];
    record::store_item(1, &[0x20; 8], &mut bytes).unwrap();
    record::store_item(2, &[0xFF; 9], &mut bytes).unwrap();
    record::store_item(5, &[0xFF; 1], &mut bytes).unwrap();
    record::store_item(8, &[0xFF; 1], &mut bytes).unwrap();
    record::store_item(10, &[0xFF; 4], &mut bytes).unwrap();
    record::store_item(11, &[0xFF; 4], &mut bytes).unwrap();
    bytes
}
