// The rule of one item by its number, and the reason that is given where it is broken.
ghost use Rattle.std.specs.Prelude.{◌≡◌, length};
ghost use Rattle.items.specs.Item.{place_of, rule_of, reason_of};

use refusal::Reason;

// Do the bytes keep the item's rule? They are as many as the item has.
#[tactic(auto, unfolding(crate::specs::Item::rule_of, crate::specs::Item::rule_in, crate::specs::Item::row_of, crate::specs::Items::items, crate::specs::Item::place_of, crate::specs::Item::place_in))]
pub(crate) fn rule(number: u8, bytes: &[u8]) -> bool
    requires { length bytes.now ≡ (place_of number).length }
    ensures { result ≡ rule_of number bytes.now }
{
    match number {
        1 => rules::station(bytes),
        2 => rules::time(*bytes.as_array().unwrap()),
        3 | 4 => rules::picture(*bytes.as_array().unwrap()),
        6 | 7 => rules::sound_byte(bytes[0]),
        _ => true,
    }
}

// What bytes that break the item's rule are refused for.
#[tactic(auto, unfolding(crate::specs::Item::reason_of, crate::specs::Item::reason_in, crate::specs::Item::row_of, crate::specs::Items::items))]
pub(crate) fn reason(number: u8) -> Reason
    ensures { result ≡ reason_of number }
{
    match number {
        1 => Reason::Station,
        2 => Reason::Time,
        3 | 4 => Reason::Picture,
        6 | 7 => Reason::Sound,
        _ => Reason::Item,
    }
}
