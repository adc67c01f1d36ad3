// The steps of a history: a step keeps the bytes that an item had before an edit. How many steps there are, one more pushed behind them,
// and the bytes before one put back.
#![tactic(auto)]

ghost use Rattle.std.specs.Prelude.{◌≡◌, ◌≤◌, length};
ghost use Rattle.refusal.specs.Checked.{checked_of};
ghost use Rattle.steps.specs.Steps.{depth, step_room, padded, held_of, kept_of, pushed, count_on, back_refusal, back_from};

use refusal::{Reason, Refusal, require};

// One step of the history: the item that was edited and the bytes it had before, with zeros behind them. It crosses to C as it lies in memory, so that
// its bytes have a fixed room.
#[repr(C)]
#[derive(Clone, Copy, Debug, PartialEq, Eq)]
pub struct Step {
    pub item: u8,
    pub old: [u8; Step::ROOM],
}

impl Step {
    // How many steps the history holds.
    pub const DEPTH: usize = 32;

    // How many bytes a step has room for: those of the longest item.
    pub const ROOM: usize = 141;
}

// The steps that are there: a count above the depth, which no opening leads to, is taken for the depth.
#[tactic(auto, unfolding(crate::specs::Steps::held_of))]
pub fn held(count: u8) -> u8
    ensures { (result ≡ held_of count) × (result ≤ depth) }
{
    count.min(Step::DEPTH as u8)
}

// How many steps there are after one more.
#[tactic(auto, unfolding(crate::specs::Steps::count_on))]
pub fn count_on(count: u8) -> u8
    ensures { result ≡ count_on count }
{
    if usize::from(count) < Step::DEPTH {
        count + 1
    } else {
        Step::DEPTH as u8
    }
}

// The bytes that an item has in a record of 248, as a step.
pub fn step_of(item: u8, bytes: &[u8]) -> Result<Step, Refusal>
    ensures { result ≡ kept_of item bytes.now }
{
    items::item_place(item)?;
    require(bytes.len() == 248, refusal::plain(Reason::Size))?;
    let old = padded(record::item_part(item, bytes));
    Ok(Step { item, old })
}

// Bytes, and zeros behind them up to a step's room.
#[tactic(auto, unfolding(crate::specs::Steps::padded))]
fn padded(bytes: &[u8]) -> [u8; Step::ROOM]
    requires { length bytes.now ≤ step_room }
    ensures { result ≡ padded bytes.now }
{
    let mut room = [0u8; Step::ROOM];
    room[..bytes.len()].copy_from_slice(bytes);
    room
}

// The steps with one more behind the first `count`; the oldest goes where there is no room.
pub fn push(steps: [Step; Step::DEPTH], count: u8, step: Step) -> [Step; Step::DEPTH]
    ensures { result ≡ pushed steps count step }
{
    let mut out = steps;
    let at = usize::from(count);
    if at < Step::DEPTH {
        out[at] = step;
    } else {
        out[..Step::DEPTH - 1].copy_from_slice(&steps[1..]);
        out[Step::DEPTH - 1] = step;
    }
    out
}

// Puts the bytes before a step back into a record of 248. A refusal leaves the record as it was.
pub fn put_back(step: Step, bytes: &mut [u8]) -> Result<(), Refusal>
    ensures { (result ≡ checked_of (back_refusal step (length bytes.old))) × (bytes.new ≡ back_from step bytes.old) }
{
    let place = items::item_place(step.item)?;
    record::put_item(step.item, &step.old[..place.length], bytes)
}
