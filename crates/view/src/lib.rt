// The view of a record: what its bytes say, as values. An unused mode or counter, an unsent time word and a stopped countdown are None, and
// never show as a number.
#![tactic(auto)]

ghost use Rattle.std.specs.Prelude.{◌≡◌, ◌∷◌, [], ◌<◌, get_or};
ghost use Rattle.rules.specs.Rules.{decimal};
ghost use Rattle.view.specs.View.{count_of, time_word_of, milliseconds_of, time_of, bit_set, picture_of, sound_of, counts_of, view_of};
ghost use Rattle.view.specs.Read.{record_read_of};

use refusal::Refusal;

// Each word is the number that its byte stands for, or None where it is not sent; the milliseconds are the two last bytes together, 0 to 999.
// Weekday 0 is Sunday.
#[derive(Clone, Copy, Debug, PartialEq, Eq)]
pub struct Time {
    pub year: Option<u8>,
    pub month: Option<u8>,
    pub day: Option<u8>,
    pub weekday: Option<u8>,
    pub hour: Option<u8>,
    pub minute: Option<u8>,
    pub second: Option<u8>,
    pub milliseconds: Option<u16>,
}

// W0 less 0x80 is the format, 1 to 5. Format, frame rate, sampling and a sound's mode stay numbers: the definitions and the laws of the way back have
// those of the standard's tables. What is read for one format alone is false for the others: transport_progressive is read for 5, samples_960 for 1
// and second_link for 2.
#[derive(Clone, Copy, Debug, PartialEq, Eq)]
pub struct Picture {
    pub format: u8,
    pub transport_progressive: bool,
    pub progressive: bool,
    pub frame_rate: u8,
    pub wide_picture: bool,
    pub samples_960: bool,
    pub wide_display: bool,
    pub sampling: u8,
    pub second_link: bool,
    pub ten_bits: bool,
}

#[derive(Clone, Copy, Debug, PartialEq, Eq)]
pub struct Sound {
    pub mode: u8,
    pub downmix: u8,
}

// All that a record says outside the private area. A mode is None where it is unused, a countdown (the fields of the picture that are left, 0
// to 254) where it is stopped, and a counter (0 to 254) where it is unused. Of the triggers Q1 is bit 0 and Q32 is bit 31; of the status S1 is
// bit 0.
#[derive(Clone, Copy, Debug, PartialEq, Eq)]
pub struct RecordView {
    pub station: [u8; 8],
    pub time: Time,
    pub picture: Option<Picture>,
    pub next_picture: Option<Picture>,
    pub picture_countdown: Option<u8>,
    pub sound: Option<Sound>,
    pub next_sound: Option<Sound>,
    pub sound_countdown: Option<u8>,
    pub triggers: u32,
    pub counters: [Option<u8>; 4],
    pub countdowns: [Option<u8>; 4],
    pub status: u16,
}

// A count of 0 to 254, where the byte is not 0xFF.
#[tactic(auto, unfolding(crate::specs::View::count_of))]
fn count_of(b: u8) -> Option<u8>
    ensures { result ≡ count_of b }
{
    (b != 0xFF).then_some(b)
}

// Four counts in a row.
fn counts_of(q: [u8; 4]) -> [Option<u8>; 4]
    ensures { result ≡ counts_of count_of q 0 }
{
    [
        count_of(q[0]),
        count_of(q[1]),
        count_of(q[2]),
        count_of(q[3]),
    ]
}

// The number that a packed decimal byte stands for.
#[tactic(auto, unfolding(rules::specs::Rules::decimal))]
fn decimal_of(b: u8) -> u8
    ensures { result ≡ decimal b }
{
    b / 16 * 10 + b % 16
}

#[tactic(auto, unfolding(crate::specs::View::time_word_of))]
fn time_word_of(b: u8) -> Option<u8>
    ensures { result ≡ time_word_of b }
{
    (b != 0xFF).then_some(decimal_of(b))
}

// Two packed decimal bytes as one number, the hundreds first.
#[tactic(auto, unfolding(crate::specs::View::milliseconds_of))]
fn milliseconds_of(high: u8, low: u8) -> Option<u16>
    ensures { result ≡ milliseconds_of high low }
{
    let number = u16::from(decimal_of(high)) * 100 + u16::from(decimal_of(low));
    (high != 0xFF).then_some(number)
}

#[tactic(auto, unfolding(crate::specs::View::time_of))]
fn time_of(bytes: &[u8; 248]) -> Time
    ensures { result ≡ time_of bytes.now }
{
    Time {
        year: time_word_of(bytes[8]),
        month: time_word_of(bytes[9]),
        day: time_word_of(bytes[10]),
        weekday: time_word_of(bytes[11]),
        hour: time_word_of(bytes[12]),
        minute: time_word_of(bytes[13]),
        second: time_word_of(bytes[14]),
        milliseconds: milliseconds_of(bytes[15], bytes[16]),
    }
}

// Is bit i set, b0 the lowest?
fn bit(i: u32, b: u8) -> bool
    requires { i < 8 }
    ensures { result ≡ bit_set i b }
{
    (b >> i) & 1 == 1
}

#[tactic(auto, unfolding(crate::specs::View::picture_of, rules::specs::Rules::low_half))]
fn picture_of(w: [u8; 4]) -> Option<Picture>
    ensures { result ≡ picture_of (get_or w 0 0) (get_or w 1 0) (get_or w 2 0) (get_or w 3 0) }
{
    if w[0] == 0 {
        return None;
    }
    Some(Picture {
        format: w[0] % 128,
        transport_progressive: (w[0] == 0x85) & bit(7, w[1]),
        progressive: bit(6, w[1]),
        frame_rate: w[1] % 16,
        wide_picture: bit(7, w[2]),
        samples_960: (w[0] == 0x81) & bit(6, w[2]),
        wide_display: bit(5, w[2]),
        sampling: w[2] % 16,
        second_link: (w[0] == 0x82) & bit(6, w[3]),
        ten_bits: bit(0, w[3]),
    })
}

#[tactic(auto, unfolding(crate::specs::View::sound_of))]
fn sound_of(b: u8) -> Option<Sound>
    ensures { result ≡ sound_of b }
{
    (b != 0).then_some(Sound {
        mode: b % 32,
        downmix: b / 32,
    })
}

// The view of 248 bytes.
#[tactic(auto, unfolding(crate::specs::View::view_of, crate::specs::View::counters_of, crate::specs::View::countdowns_of))]
fn view_of(bytes: &[u8; 248]) -> RecordView
    ensures { result ≡ view_of bytes.now }
{
    RecordView {
        station: *bytes[0..8].as_array().unwrap(),
        time: time_of(bytes),
        picture: picture_of([bytes[17], bytes[18], bytes[19], bytes[20]]),
        next_picture: picture_of([bytes[21], bytes[22], bytes[23], bytes[24]]),
        picture_countdown: count_of(bytes[25]),
        sound: sound_of(bytes[26]),
        next_sound: sound_of(bytes[27]),
        sound_countdown: count_of(bytes[28]),
        triggers: u32::from_le_bytes([bytes[29], bytes[30], bytes[31], bytes[32]]),
        counters: counts_of([bytes[33], bytes[34], bytes[35], bytes[36]]),
        countdowns: counts_of([bytes[37], bytes[38], bytes[39], bytes[40]]),
        status: u16::from_le_bytes([bytes[41], bytes[42]]),
    }
}

// Reads a record from bytes: 21, then 15 and 11 to 14 with their places.
#[tactic(auto, unfolding(crate::specs::Read::record_read_of, record::specs::Record::record_refusal))]
pub fn read_record(bytes: &[u8]) -> Result<RecordView, Refusal>
    ensures { result ≡ record_read_of bytes.now }
{
    record::record_refusal(bytes)?;
    Ok(view_of(bytes.as_array().unwrap()))
}
