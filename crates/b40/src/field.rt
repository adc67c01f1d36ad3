// What stands in a field, as code gets at it: ten bits lie in two neighbouring bytes and eight bits in two neighbouring words of ten, so that four
// words go into five bytes. That words are narrow is asked by each of the three that go through them: a type that says it would have to copy what is
// lent. Line and offset go one by one, as the definitions and the public call have them.
ghost use Rattle.std.specs.Prelude.{◌≡◌, true, ◌+◌, ◌*◌, ◌≤◌, ◌<◌, take, drop};
ghost use Rattle.anc.specs.Words.{narrow};
ghost use Rattle.b40.specs.Field.{bits_each, number_of, numbers, field_of, part, words_of, is_place};

// Is the line 1 to 1,125, and the offset at most 2,199?
#[tactic(auto, unfolding(crate::specs::Field::is_place))]
pub(crate) fn is_place(line: u16, offset: u16) -> bool
    ensures { result ≡ is_place line offset }
{
    (1 <= line) & (line <= 1125) & (offset <= 2199)
}

// Eight bits of words of ten, from bit 10k + from on: they lie in word k and the next.
fn byte(words: &[u16; 263], k: usize, from: usize) -> u8
    requires { (narrow words.now ≡ true) × (k < 262) × (from ≤ 12) }
    ensures { result ≡ number_of (take 8 (drop (10 * k + from) (bits_each 10 words.now))) }
{
    (((u32::from(words[k]) * 1024 + u32::from(words[k + 1])) >> (12 - from)) % 256) as u8
}

// Fills 328 bytes with the bits of 263 words, of the last as many as there is room for.
fn fill_bytes(words: &[u16; 263], out: &mut [u8; 328])
    requires { narrow words.now ≡ true }
    ensures { out.new ≡ numbers 328 8 (bits_each 10 words.now) }
{
    for i in 0..65 {
        out[5 * i] = byte(words, 4 * i, 0);
        out[5 * i + 1] = byte(words, 4 * i, 8);
        out[5 * i + 2] = byte(words, 4 * i + 1, 6);
        out[5 * i + 3] = byte(words, 4 * i + 2, 4);
        out[5 * i + 4] = byte(words, 4 * i + 3, 2);
    }
    out[325] = byte(words, 260, 0);
    out[326] = byte(words, 260, 8);
    out[327] = byte(words, 261, 6);
}

// Fills 328 bytes with the field. What stands before the words takes the place of the flag, three words of ten bits; the pad is the upper bits of
// a word behind the others.
pub(crate) fn write_bytes(yc: bool, line: u16, offset: u16, words: &[u16; 262], out: &mut [u8; 328])
    requires { (narrow words.now ≡ true) × (is_place line offset ≡ true) }
    ensures { out.new ≡ field_of yc line offset words.now }
{
    let mut head = u32::from(line) * 4096 + u32::from(offset);
    if yc {
        head += 0x800000;
    }
    let mut all: [u16; 263] = [0x3C0; 263];
    all[..262].copy_from_slice(words);
    all[0] = (head >> 20) as u16;
    all[1] = ((head >> 10) % 1024) as u16;
    all[2] = (head % 1024) as u16;
    fill_bytes(&all, out);
}

// The number that the first 32 bits of a field spell.
pub(crate) fn first(field: &[u8; 328]) -> u32
    ensures { result ≡ part field.now 0 32 }
{
    u32::from_be_bytes([field[0], field[1], field[2], field[3]])
}

// Ten bits of a field, from bit 8k + from on: they lie in byte k and the next.
fn word(field: &[u8; 328], k: usize, from: usize) -> u16
    requires { (k < 327) × (from ≤ 6) }
    ensures { result ≡ part field.now (8 * k + from) 10 }
{
    ((u16::from(field[k]) * 256 + u16::from(field[k + 1])) >> (6 - from)) % 1024
}

// Fills 262 words with the packet in a field. The flag takes the place of what stands before the words.
pub(crate) fn write_words(field: &[u8; 328], out: &mut [u16; 262])
    ensures { out.new ≡ words_of field.now }
{
    for i in 0..65 {
        out[4 * i] = word(field, 5 * i, 0);
        out[4 * i + 1] = word(field, 5 * i + 1, 2);
        out[4 * i + 2] = word(field, 5 * i + 2, 4);
        out[4 * i + 3] = word(field, 5 * i + 3, 6);
    }
    out[260] = word(field, 325, 0);
    out[261] = word(field, 326, 2);
    out[0] = 0x000;
    out[1] = 0x3FF;
    out[2] = 0x3FF;
}
