// The repair of a packet's 254 protected words: rewritten as the sound words of the codeword near them, with a count of those that change.
#![tactic(auto)]

ghost use Rattle.std.specs.Prelude.{◌≡◌, length};
ghost use Rattle.repair.specs.Repair.{repaired_of, counted_of, repair_leaves};

use refusal::{Reason, Refusal, require};

// Rewrites the 254 protected words as the sound words of a codeword, and says how many words' ten bits changed, 0 to 254. A word that is not sound
// marks its byte: with f marks, and e for the number of the other bytes that differ from it, the codeword has 2e + f at most 6; where there is none, it
// is the one within three bytes of what the words carry. A refusal leaves `out` as it was.
pub fn repair(words: &[u16], out: &mut [u16]) -> Result<u8, Refusal>
    ensures { (result ≡ repaired_of words.now (length out.old)) × (out.new ≡ repair_leaves words.now out.old) }
{
    require(words.len() == 254, refusal::plain(Reason::Size))?;
    require(anc::narrow(words), refusal::plain(Reason::Wide))?;
    let mut bytes = [0u8; 254];
    anc::low_bytes(words, &mut bytes).unwrap();
    search::repair_marked(&mut bytes, words)?;
    require(out.len() == 254, refusal::plain(Reason::Room))?;
    anc::sound_words(&bytes, out).unwrap();
    count_fixed(words, &bytes)
}

// How many of 254 words differ, in all ten bits, from the sound words of 254 bytes. Other numbers of them are refused.
#[tactic(auto, unfolding(rs::specs::Decode::changes))]
pub fn count_fixed(words: &[u16], bytes: &[u8]) -> Result<u8, Refusal>
    ensures { result ≡ counted_of words.now bytes.now }
{
    require(words.len() == 254, refusal::plain(Reason::Size))?;
    require(bytes.len() == 254, refusal::plain(Reason::Size))?;
    let mut fixed: u8 = 0;
    for i in 0..words.len() {
        if words[i] != anc::word_of(bytes[i]) {
            fixed += 1;
        }
    }
    Ok(fixed)
}
