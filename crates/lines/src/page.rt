// A page of 704 places that text is written on, character by character. The digits are its own: the definitions and the clause of `show` have the bytes, and
// a Formatter would answer with a Result that cannot fail here.
ghost use Rattle.std.specs.Prelude.{◌≡◌, ◌<◌, ◌≤◌};
ghost use Rattle.lines.specs.Text.{digit, leading, decimal, hex_byte, hex_bytes, blank, pushed, written};

// The lines of a field take 679 places at the most.
const PLACES: usize = 704;

// The places, of which the first `length` are written; the others are zero. Fixed memory, and no String: nothing in this project takes the heap.
#[derive(Clone, Copy, Debug, PartialEq, Eq)]
pub struct Page {
    pub bytes: [u8; PLACES],
    pub length: usize,
}

impl Page {
    // Nothing is written yet.
    #[tactic(auto, unfolding(crate::specs::Text::blank))]
    pub(crate) fn blank() -> Self
        ensures { result ≡ blank }
    {
        Page {
            bytes: [0; PLACES],
            length: 0,
        }
    }

    // One character more, where there is a place for it.
    #[tactic(auto, unfolding(crate::specs::Text::pushed))]
    fn push(&mut self, c: u8)
        ensures { self.new ≡ pushed self.old c }
    {
        if self.length < PLACES {
            self.bytes[self.length] = c;
            self.length += 1;
        }
    }

    // Text more.
    #[tactic(auto, using(crate::proofs::Laws::Page::text_written))]
    pub(crate) fn write(&mut self, text: &[u8])
        ensures { self.new ≡ written self.old text.now }
    {
        for c in text {
            self.push(*c);
        }
    }

    // A number in decimal.
    #[tactic(auto, using(crate::proofs::Laws::Page::digits_written))]
    pub(crate) fn write_number(&mut self, n: u16)
        ensures { self.new ≡ written self.old (decimal n) }
    {
        let digits = [
            digit(n / 10000 % 10),
            digit(n / 1000 % 10),
            digit(n / 100 % 10),
            digit(n / 10 % 10),
            digit(n % 10),
        ];
        self.write(&digits[leading(n)..]);
    }

    // A byte in hexadecimal, with a space in front.
    #[tactic(auto, unfolding(crate::specs::Text::hex_byte))]
    fn write_hex(&mut self, b: u8)
        ensures { self.new ≡ written self.old (hex_byte b) }
    {
        self.write(&[b' ', digit(u16::from(b / 16)), digit(u16::from(b % 16))]);
    }

    // Bytes in hexadecimal, each with a space in front.
    #[tactic(auto, using(crate::proofs::Laws::Page::bytes_written))]
    pub(crate) fn write_bytes(&mut self, bytes: &[u8])
        ensures { self.new ≡ written self.old (hex_bytes bytes.now) }
    {
        for b in bytes {
            self.write_hex(*b);
        }
    }
}

// The code of a digit below 16: 0 to 9, then A to F.
#[tactic(auto, unfolding(crate::specs::Text::digit))]
fn digit(d: u16) -> u8
    requires { d < 16 }
    ensures { result ≡ digit d }
{
    if d < 10 {
        b'0' + d as u8
    } else {
        b'A' + (d - 10) as u8
    }
}

// How many of five digits stand in front of the first that counts.
#[tactic(auto, unfolding(crate::specs::Text::leading))]
fn leading(n: u16) -> usize
    ensures { (result ≡ leading n) × (result ≤ 4) }
{
    match n {
        0..=9 => 4,
        10..=99 => 3,
        100..=999 => 2,
        1000..=9999 => 1,
        _ => 0,
    }
}
