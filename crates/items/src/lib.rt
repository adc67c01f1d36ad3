// The items of the record, each by its number, which is how the interface, a step of the history and the table of the definitions name it (so there
// is no enum of items): where it stands, what the bytes given for it are refused for, and which have places that aren't read.
#![tactic(auto)]

mod item;

ghost use Rattle.std.specs.Prelude.{◌≡◌, ◌||◌, ◌+◌, ◌-◌, ◌<◌, ◌≤◌, eqb, IfOk};
ghost use Rattle.refusal.specs.Checked.{answer_of, checked_of};
ghost use Rattle.items.specs.Item.{item_refusal, place_of, place_refusal};

use refusal::{Reason, Refusal};

// Where an item stands: its first byte, counted from 1, and how many it has.
#[derive(Clone, Copy, Debug, PartialEq, Eq)]
pub struct ItemPlace {
    pub first: usize,
    pub length: usize,
}

// The place of the item that has the number, which lies in the record. Where there is no such item, that is refused.
#[tactic(auto, unfolding(crate::specs::Item::place_refusal, crate::specs::Item::place_refused_in, crate::specs::Item::place_of, crate::specs::Item::place_in, crate::specs::Item::row_of, crate::specs::Items::items))]
pub fn item_place(number: u8) -> Result<ItemPlace, Refusal>
    ensures value { result ≡ answer_of (place_refusal number) (place_of number) }
    ensures inside { IfOk result (λ p. (0 < p.first) × (p.first - 1 + p.length ≤ 248)) }
{
    let (first, length) = match number {
        1 => (1, 8),
        2 => (9, 9),
        3 => (18, 4),
        4 => (22, 4),
        5 => (26, 1),
        6 => (27, 1),
        7 => (28, 1),
        8 => (29, 1),
        9 => (30, 4),
        10 => (34, 4),
        11 => (38, 4),
        12 => (42, 2),
        13 => (108, 141),
        _ => return Err(refusal::plain(Reason::Item)),
    };
    Ok(ItemPlace { first, length })
}

// What the bytes given for an item are refused for: no such item, another number of bytes than it has, or its rule.
#[tactic(auto, using(crate::proofs::Laws::Item::checks))]
pub fn item_refusal(number: u8, bytes: &[u8]) -> Result<(), Refusal>
    ensures { result ≡ checked_of (item_refusal number bytes.now) }
{
    let place = item_place(number)?;
    refusal::require(bytes.len() == place.length, refusal::plain(Reason::Size))?;
    let broken = refusal::at(item::reason(number), place.first as u8);
    refusal::require(item::rule(number, bytes), broken)
}

// Is it a picture mode, of which not every place is read?
pub fn is_picture(number: u8) -> bool
    ensures { result ≡ (eqb number 3 || eqb number 4) }
{
    matches!(number, 3 | 4)
}
