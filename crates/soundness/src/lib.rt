// The word check: which bit of a word is not what b0 to b7 call for, and which word of a run is the first that is not sound.
#![tactic(auto)]

ghost use Rattle.std.specs.Prelude.{◌≡◌, ◌≤◌, length};
ghost use Rattle.basics.specs.Each.{all};
ghost use Rattle.refusal.specs.Checked.{checked_of};
ghost use Rattle.anc.specs.Word.{is_sound};
ghost use Rattle.soundness.specs.Check.{wrong_by, soundness_of, unsound_at, unsound_from, words_refusal};

use refusal::{Reason, Refusal, Wrong, require};

// What is wrong with a word of ten bits, by whether b8 is right and whether b9 is; a sound word has nothing.
fn wrong_by(b8: bool, b9: bool) -> Option<Wrong>
    ensures { result ≡ wrong_by b8 b9 }
{
    match (b8, b9) {
        (true, true) => None,
        (true, false) => Some(Wrong::B9),
        (false, true) => Some(Wrong::B8),
        (false, false) => Some(Wrong::Both),
    }
}

// The word check: b8 and b9 are each held against the word that b0 to b7 call for, and what is wrong with the word is the answer. A number over
// 1,023 is refused.
pub fn check_word(word: u16) -> Result<Option<Wrong>, Refusal>
    ensures { result ≡ soundness_of word }
{
    require(word <= 1023, refusal::plain(Reason::Wide))?;
    let called = anc::word_of((word % 256) as u8);
    let b8 = word / 256 % 2 == called / 256 % 2;
    let b9 = word / 512 == called / 512;
    Ok(wrong_by(b8, b9))
}

// What a word is refused for at its number: what is wrong with it, or that it is no word of ten bits.
fn word_refusal(number: u8, word: u16) -> Result<(), Refusal>
    ensures { result ≡ checked_of (unsound_at number word) }
{
    match check_word(word)? {
        None => Ok(()),
        Some(wrong) => Err(refusal::at(Reason::Parity(wrong), number)),
    }
}

// Is each word sound? A word is when it is the word of its own low byte. With no early return, as `all` would have, so that the words can be taken many
// at a time.
fn all_sound(words: &[u16]) -> bool
    ensures { result ≡ all is_sound words.now }
{
    let mut ok = true;
    for word in words {
        ok = ok & (*word == anc::word_of((*word % 256) as u8));
    }
    ok
}

// The first word that is not sound, by its number from 1 on, is the refusal.
fn first_unsound(words: &[u16]) -> Result<(), Refusal>
    requires { length words.now ≤ 255 }
    ensures { result ≡ checked_of (unsound_from 1 words.now) }
{
    for i in 0..words.len() {
        word_refusal((1 + i) as u8, words[i])?;
    }
    Ok(())
}

// The word check of each of up to 255 words: the first that is not sound is the refusal. Only where there is one are they gone through one
// by one.
pub fn check_words(words: &[u16]) -> Result<(), Refusal>
    ensures { result ≡ checked_of (words_refusal words.now) }
{
    require(words.len() <= 255, refusal::plain(Reason::Size))?;
    if all_sound(words) {
        return Ok(());
    }
    first_unsound(words)
}
