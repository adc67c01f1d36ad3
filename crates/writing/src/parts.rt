// The 262 words of 248 bytes, written part by part into a buffer that has room for them.
ghost use Rattle.std.specs.Prelude.{◌≡◌, cond, ◌++◌, ◌∷◌, [], ◌≤◌, replicate};
ghost use Rattle.rs.specs.Codeword.{parity_of};
ghost use Rattle.anc.specs.Words.{sound_words, flag};
ghost use Rattle.writing.specs.Layout.{kind, header_word, packet_words};

// The header word.
#[tactic(auto, unfolding(crate::specs::Layout::header_word))]
fn header(correction: bool, ci: u8) -> u16
    requires { ci ≤ 15 }
    ensures { result ≡ header_word correction ci }
{
    if correction {
        anc::word_of(128 + ci)
    } else {
        anc::word_of(ci)
    }
}

// The first seven words: the flag, the kind and the header.
#[tactic(auto, unfolding(anc::specs::Words::flag, crate::specs::Layout::kind))]
fn front(header: u16) -> [u16; 7]
    ensures { result ≡ flag ++ kind ++ header ∷ [] }
{
    [0x000, 0x3FF, 0x3FF, 0x25F, 0x1FE, 0x2FF, header]
}

// Six words with the parity of the bytes, or 0x200 each where correction is off.
fn guard(correction: bool, bytes: &[u8]) -> [u16; 6]
    ensures { result ≡ cond correction (sound_words (parity_of bytes.now)) (replicate 6 0x200) }
{
    let mut words = [0x200; 6];
    if correction {
        anc::sound_words(&rs::parity(bytes), &mut words).unwrap();
    }
    words
}

// Fills 262 words with the packet of 248 bytes. The checksum comes last, over the words that stand there by then.
pub(crate) fn fill(correction: bool, ci: u8, bytes: &[u8; 248], out: &mut [u16; 262])
    requires { ci ≤ 15 }
    ensures { out.new ≡ packet_words correction ci bytes.now }
{
    out[0..7].copy_from_slice(&front(header(correction, ci)));
    anc::sound_words(bytes, &mut out[7..255]).unwrap();
    out[255..261].copy_from_slice(&guard(correction, bytes));
    let sum = anc::checksum(&out[3..261]);
    out[261] = sum;
}
