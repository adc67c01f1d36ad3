// Ten-bit words, as ancillary packets of any kind carry them, and the checksum of a run of them.
#![tactic(auto)]

ghost use Rattle.std.specs.Prelude.{◌≡◌, ◌<◌, length};
ghost use Rattle.refusal.specs.Checked.{checked_of};
ghost use Rattle.anc.specs.Word.{parity_of, with_b9, word_of, checksum_of};
ghost use Rattle.anc.specs.Words.{has_flag, narrow, low_bytes, sound_words, fill_refusal, fill_leaves};

use refusal::{Reason, Refusal, require};

// The even parity of a byte: each half is folded onto the other until one bit is left.
fn parity(byte: u8) -> u8
    ensures { result ≡ parity_of byte }
{
    let four = byte ^ byte / 16;
    let two = four ^ four / 4;
    let one = two ^ two / 2;
    one % 2
}

// Nine bits as a word: b9 is the inverse of b8.
#[tactic(auto, unfolding(crate::specs::Word::with_b9, crate::specs::Word::bit))]
fn with_b9(nine: u16) -> u16
    requires { nine < 512 }
    ensures { result ≡ with_b9 nine }
{
    nine + 512 * (1 - nine / 256)
}

// The sound word that carries a byte: b8 and b9 together are 2 less the parity.
pub fn word_of(byte: u8) -> u16
    ensures { result ≡ word_of byte }
{
    u16::from(byte) + 256 * u16::from(2 - parity(byte))
}

// The checksum word of a run of words. The sum may wrap at 65,536, of which 512 is a divisor, so one remainder at the end is
// enough.
#[tactic(auto, unfolding(crate::specs::Word::total, crate::specs::Word::checksum_of))]
pub fn checksum(words: &[u16]) -> u16
    ensures { result ≡ checksum_of words.now }
{
    let mut sum: u16 = 0;
    for word in words {
        sum = sum.wrapping_add(*word);
    }
    with_b9(sum % 512)
}

// Do the words begin with the flag of a packet?
pub fn has_flag(words: &[u16]) -> bool
    ensures { result ≡ has_flag words.now }
{
    words.starts_with(&[0x000, 0x3FF, 0x3FF])
}

// Is no word over 1,023? It goes by the largest, with no early return, so that the words can be taken many at a time.
pub fn narrow(words: &[u16]) -> bool
    ensures { result ≡ narrow words.now }
{
    let mut top: u16 = 0;
    for word in words {
        top = top.max(*word);
    }
    top <= 1023
}

// Fills `out` with the low bytes of the words. Room for another number of bytes is refused, and stays as it was.
pub fn low_bytes(words: &[u16], out: &mut [u8]) -> Result<(), Refusal>
    ensures { (result ≡ checked_of (fill_refusal (low_bytes words.now) (length out.old))) × (out.new ≡ fill_leaves (low_bytes words.now) out.old) }
{
    require(words.len() == out.len(), refusal::plain(Reason::Room))?;
    for i in 0..words.len() {
        out[i] = (words[i] % 256) as u8;
    }
    Ok(())
}

// Fills `out` with the sound words of the bytes. Room for another number of words is refused, and stays as it was. (Not one function with `low_bytes`, over
// what is made of an entry: its contract would have to say of a closure over two types what these two say in a line each.)
pub fn sound_words(bytes: &[u8], out: &mut [u16]) -> Result<(), Refusal>
    ensures { (result ≡ checked_of (fill_refusal (sound_words bytes.now) (length out.old))) × (out.new ≡ fill_leaves (sound_words bytes.now) out.old) }
{
    require(bytes.len() == out.len(), refusal::plain(Reason::Room))?;
    for i in 0..bytes.len() {
        out[i] = word_of(bytes[i]);
    }
    Ok(())
}
