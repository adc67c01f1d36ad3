// What a packet adds to the counts, by its kind. Two functions and no table of kinds: each is one comparison.
ghost use Rattle.std.specs.Prelude.{◌≡◌};
ghost use Rattle.sequence.specs.Sequence.{repeats_in, conflicts_in};

use crate::Kind;

// 1 for a repeat, else 0.
pub fn repeats(kind: Kind) -> u32
    ensures { result ≡ repeats_in kind }
{
    u32::from(kind == Kind::Repeat)
}

// 1 for a conflict, else 0.
pub fn conflicts(kind: Kind) -> u32
    ensures { result ≡ conflicts_in kind }
{
    u32::from(kind == Kind::Conflict)
}
