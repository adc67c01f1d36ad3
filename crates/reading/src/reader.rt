// Reading a packet part by part: the words up to the header, the protected words and their bytes, the checksum, and what is told of them. The words
// are lent by one caller and the bytes filled by another, so that they go side by side and not as one struct.
ghost use Rattle.std.specs.Prelude.{◌≡◌, true, length};
ghost use Rattle.anc.specs.Word.{checksum_of};
ghost use Rattle.anc.specs.Words.{sound_words};
ghost use Rattle.rs.specs.Decode.{changes};
ghost use Rattle.basics.specs.Each.{all};
ghost use Rattle.refusal.specs.Checked.{checked_of};
ghost use Rattle.refusal.specs.Chain.{left_by};
ghost use Rattle.reading.specs.Reading.{correction_of, protected_of, is_header, is_fill, head_refusal, protected_refusal, body_refusal, read_refusal};
ghost use Rattle.reading.specs.Answer.{packet_by, tail_refusal, guard_bytes, summed_by};

use crate::Packet;
use refusal::{Reason, Refusal, plain, require};

// Is the word a header: sound, with b6 to b4 zero?
fn is_header(word: u16) -> bool
    ensures { result ≡ is_header word }
{
    match soundness::check_word(word) {
        Ok(None) => word / 16 % 8 == 0,
        Ok(Some(_)) => false,
        Err(_) => false,
    }
}

// Is each word 0x200?
fn all_fill(words: &[u16]) -> bool
    ensures { result ≡ all is_fill words.now }
{
    words.iter().all(|word| *word == 0x200)
}

// What the words are refused for before the protected ones are looked at.
#[tactic(auto, unfolding(crate::specs::Reading::head_refusal))]
fn check_head(words: &[u16]) -> Result<(), Refusal>
    ensures { result ≡ checked_of (head_refusal words.now) }
{
    require(words.len() == 262, plain(Reason::Length))?;
    require(anc::narrow(words), plain(Reason::Wide))?;
    require(anc::has_flag(words), plain(Reason::Flag))?;
    require(
        (words[3] == 0x25F) & (words[4] == 0x1FE),
        plain(Reason::Kind),
    )?;
    require(words[5] == 0x2FF, plain(Reason::Count))?;
    require(is_header(words[6]), plain(Reason::Header))
}

// Fills `out` with the bytes of the 254 protected words as they are read, and says what the words are refused for.
fn read_bytes(words: &[u16], correction: bool, out: &mut [u8]) -> Result<(), Refusal>
    requires { (length words.now ≡ 254) × (length out.old ≡ 254) }
    ensures { (result ≡ checked_of (protected_refusal correction words.now)) × (out.new ≡ guard_bytes correction words.now) }
{
    anc::low_bytes(words, out).unwrap();
    if correction {
        return search::repair_marked(out, words);
    }
    soundness::check_words(&words[0..248])?;
    require(all_fill(&words[248..254]), plain(Reason::Fill))
}

// The checksum of the words from DID to the last user word, with the sound words of the bytes in the protected places.
fn sum_rewritten(words: &[u16; 262], bytes: &[u8; 254]) -> u16
    ensures { result ≡ checksum_of (summed_by true words.now bytes.now) }
{
    let mut summed = [0u16; 258];
    // Word by word: with two parts of the array lent one after the other, the bounds of the whole stayed open.
    summed[0] = words[3];
    summed[1] = words[4];
    summed[2] = words[5];
    summed[3] = words[6];
    anc::sound_words(bytes, &mut summed[4..258]).unwrap();
    anc::checksum(&summed)
}

// The checksum of the words from DID to the last user word, as they are read.
fn sum_read(words: &[u16; 262], correction: bool, bytes: &[u8; 254]) -> u16
    ensures { result ≡ checksum_of (summed_by correction words.now bytes.now) }
{
    if correction {
        return sum_rewritten(words, bytes);
    }
    anc::checksum(&words[3..261])
}

// What the words are refused for once their bytes are read: the checksum, then the record.
#[tactic(auto, unfolding(crate::specs::Answer::tail_refusal))]
fn check_tail(words: &[u16; 262], correction: bool, bytes: &[u8; 254]) -> Result<(), Refusal>
    ensures { result ≡ checked_of (tail_refusal words.now correction bytes.now) }
{
    let is_sum = sum_read(words, correction, bytes) == words[261];
    require(is_sum, plain(Reason::Checksum))?;
    record::record_refusal(&bytes[0..248])
}

// Fills `bytes` with those of the protected words as they are read, and says what the words are refused for behind the header.
fn check_body(words: &[u16; 262], bytes: &mut [u8; 254]) -> Result<(), Refusal>
    ensures { (result ≡ checked_of (body_refusal words.now)) × (bytes.new ≡ guard_bytes (correction_of words.now) (protected_of words.now)) }
{
    let on = words[6] / 128 % 2 == 1;
    read_bytes(&words[7..261], on, bytes)?;
    check_tail(words, on, bytes)
}

// What the words are refused for; `bytes` are those of the protected words as they are read, unless the words up to the header are
// refused.
pub(crate) fn check(words: &[u16], bytes: &mut [u8; 254]) -> Result<(), Refusal>
    ensures { (result ≡ checked_of (read_refusal words.now)) × (bytes.new ≡ left_by (head_refusal words.now) (guard_bytes (correction_of words.now) (protected_of words.now)) bytes.old) }
{
    check_head(words)?;
    check_body(words.try_into().unwrap(), bytes)
}

// What is told of accepted words whose bytes are read; words are counted as fixed with correction on alone.
pub(crate) fn packet(words: &[u16; 262], bytes: &[u8; 254]) -> Packet
    ensures { result ≡ packet_by words.now bytes.now }
{
    let correction = words[6] / 128 % 2 == 1;
    let fixed = if correction {
        repair::count_fixed(&words[7..261], bytes).unwrap()
    } else {
        0
    };
    let ci = (words[6] % 16) as u8;
    Packet {
        correction,
        ci,
        fixed,
    }
}
