// The triggers that a record sets: those that were 0 in the record before it and are 1 in it.
ghost use Rattle.std.specs.Prelude.{◌≡◌};
ghost use Rattle.sequence.specs.Onsets.{onset_byte, onsets_after};

// The bits of a byte that were 0 and are 1.
fn byte(old: u8, new: u8) -> u8
    ensures { result ≡ onset_byte old new }
{
    new & !old
}

// The triggers that were 0 and are 1, Q1 lowest; none where there is no record before.
// No Option of the record before: the follower's stands in fixed memory also where nothing was started.
#[tactic(auto, unfolding(crate::specs::Onsets::onsets_after, crate::specs::Onsets::onsets_of))]
pub fn onsets(started: bool, old: &[u8; 248], new: &[u8; 248]) -> u32
    ensures { result ≡ onsets_after started old.now new.now }
{
    if !started {
        return 0;
    }
    u32::from_le_bytes([
        byte(old[29], new[29]),
        byte(old[30], new[30]),
        byte(old[31], new[31]),
        byte(old[32], new[32]),
    ])
}
