// Reading a control packet: its 262 words are checked, and its record handed out.
#![tactic(auto)]

mod reader;

ghost use Rattle.std.specs.Prelude.{◌≡◌, length};
ghost use Rattle.reading.specs.Answer.{reading_of, reading_into_of, read_leaves};

use refusal::Refusal;

// What an accepted packet is: is correction on, its index CI, and how many protected words' ten bits changed, 0 to 254.
#[derive(Clone, Copy, Debug, PartialEq, Eq)]
pub struct Packet {
    pub correction: bool,
    pub ci: u8,
    pub fixed: u8,
}

// Reads a packet: its 262 words are checked in a fixed order, and the first check that fails is the refusal.
pub fn read_packet(words: &[u16]) -> Result<Packet, Refusal>
    ensures { result ≡ reading_of words.now }
{
    let mut bytes = [0u8; 254];
    reader::check(words, &mut bytes)?;
    Ok(reader::packet(words.try_into().unwrap(), &bytes))
}

// Reads a packet, and leaves its record of 248 bytes in `out`. A refusal leaves `out` as it was.
pub fn read_packet_into(words: &[u16], out: &mut [u8]) -> Result<Packet, Refusal>
    ensures { (result ≡ reading_into_of words.now (length out.old)) × (out.new ≡ read_leaves words.now out.old) }
{
    let mut bytes = [0u8; 254];
    reader::check(words, &mut bytes)?;
    record::write_record(&bytes[0..248], out)?;
    Ok(reader::packet(words.try_into().unwrap(), &bytes))
}
