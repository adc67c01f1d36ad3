// An error in a block: where it stands, and by what the byte there differs.
ghost use Rattle.std.specs.Prelude.{◌<◌};

// A value at a place of the block; a value of 0 is no error.
#[derive(Clone, Copy)]
pub(crate) struct Error {
    pub(crate) place: usize,
    pub(crate) value: u8,
    ghost within: { place < 254 },
}
