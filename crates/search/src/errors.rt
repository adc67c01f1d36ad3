// A place in a block, the places that are marked, and an error at a place.
ghost use Rattle.std.specs.Prelude.{◌≡◌, ◌<◌, ◌≤◌};
ghost use Rattle.gf256.specs.Field.{pow};

use gf256::Tables;

// A place, by its exponent k: it is the field's element 2^k, from 253 for the first byte to 0 for the last.
#[derive(Clone, Copy)]
pub(crate) struct Place {
    pub(crate) exponent: usize,
    ghost within: { exponent < 254 },
}

impl Place {
    // The field's element that it is.
    pub(crate) fn element(self, tables: &Tables) -> u8
        ensures { result ≡ pow 2 self.exponent }
    {
        tables.wheel()[self.exponent]
    }
}

// One to six marked places. Fixed memory: room for six with their count.
#[derive(Clone, Copy)]
pub(crate) struct Marks {
    pub(crate) count: usize,
    pub(crate) places: [Place; 6],
    ghost any: { 0 < count },
    ghost few: { count ≤ 6 },
}

// A value at a place; a value of 0 is no error.
#[derive(Clone, Copy)]
pub(crate) struct Error {
    pub(crate) place: Place,
    pub(crate) value: u8,
}
