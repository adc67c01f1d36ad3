// The rules of the record's items: what each may hold, and which of its bits are read. Each answer is one test, whose
// parts cannot fail, and none needs another to pass first. A time and a picture mode are handed in by value, so that there is no
// other number of bytes to speak of.
#![tactic(auto)]

ghost use Rattle.std.specs.Prelude.{◌≡◌, cond, ◌*◌, ◌/◌, ◌%◌, ◌≤◌, ◌<◌};
ghost use Rattle.rules.specs.Rules.{station_byte, station_rule, time_byte, time_rule, picture_rule, picture_clean, sound_byte};

// ---- item 1, station code

#[tactic(auto, unfolding(crate::specs::Rules::station_byte))]
fn station_byte(b: u8) -> bool
    ensures { result ≡ station_byte b }
{
    (0x20..=0x7E).contains(&b) | (0xA1..=0xFE).contains(&b)
}

// May each byte stand in a station code?
pub fn station(bytes: &[u8]) -> bool
    ensures { result ≡ station_rule bytes.now }
{
    bytes.iter().all(|b| station_byte(*b))
}

// ---- item 2, time

// Two decimal digits that make a number from low to high, or not sent?
#[tactic(auto, unfolding(crate::specs::Rules::time_byte, crate::specs::Rules::decimal))]
fn time_byte(low: u8, high: u8, b: u8) -> bool
    ensures { result ≡ time_byte low high b }
{
    let tens = b / 16;
    let units = b % 16;
    (b == 0xFF) | ((tens <= 9) & (units <= 9) & (low..=high).contains(&(tens * 10 + units)))
}

// May these nine bytes stand for a time? The last two, the milliseconds, are both sent or both not.
#[tactic(auto, unfolding(crate::specs::Rules::time_rule))]
pub fn time(w: [u8; 9]) -> bool
    ensures { result ≡ time_rule w }
{
    let date = time_byte(0, 99, w[0])
        & time_byte(1, 12, w[1])
        & time_byte(1, 31, w[2])
        & time_byte(0, 6, w[3]);
    let hour = date & time_byte(0, 23, w[4]) & time_byte(0, 59, w[5]) & time_byte(0, 59, w[6]);
    let milliseconds = hour & time_byte(0, 9, w[7]) & time_byte(0, 99, w[8]);
    milliseconds & ((w[7] == 0xFF) == (w[8] == 0xFF))
}

// ---- items 3 and 4, picture mode

// May these four bytes stand for a picture mode?
pub fn picture(w: [u8; 4]) -> bool
    ensures { result ≡ picture_rule w }
{
    let rate = [0, 2, 3, 5, 6, 7, 9, 10, 11].contains(&(w[1] % 16));
    let sampling = [0, 1, 2, 3, 4, 5, 6, 8, 9, 10].contains(&(w[2] % 16));
    (w[0] == 0) | ((0x81..=0x85).contains(&w[0]) & rate & sampling)
}

// The four bytes of a picture mode with every bit that isn't read set to zero. Each mask has the bits that are read: b7 of W1 only for 0x85, b6
// of W2 only for 0x81, and b6 of W3 only for 0x82.
#[tactic(auto, unfolding(crate::specs::Rules::picture_clean))]
pub fn picture_clean(w: [u8; 4]) -> [u8; 4]
    ensures { result ≡ picture_clean w }
{
    if w[0] == 0 {
        return [0; 4];
    }
    let scans = if w[0] == 0x85 { 0xCF } else { 0x4F };
    let aspects = if w[0] == 0x81 { 0xEF } else { 0xAF };
    let link = if w[0] == 0x82 { 0x41 } else { 0x01 };
    [w[0], w[1] & scans, w[2] & aspects, w[3] & link]
}

// ---- items 6 and 7, sound mode

// May the byte stand for a sound mode?
pub fn sound_byte(b: u8) -> bool
    ensures { result ≡ sound_byte b }
{
    let mode = b % 32;
    let high = b / 32;
    let several = [0x11, 0x12, 0x15, 0x17].contains(&mode);
    (mode <= 0x1A) & ((high == 0) | ((4..=7).contains(&high) & several))
}
