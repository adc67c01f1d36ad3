// Packets as a foreign encoder makes them, with counters of its own where it likes: what the panel says of them, and what a desk made by hand that
// holds such counters sends.
use crate::day;
use answers::AyPacket;
use desk::Desk;
use follower::Follower;

// The codeword of the bytes of a packet's record: their parity stands behind them.
fn codeword(bytes: &[u8; 248]) -> [u8; 254] {
    let parity = rs::parity(bytes);
    std::array::from_fn(|n| if n < 248 { bytes[n] } else { parity[n - 248] })
}

// Puts bytes into a packet, with their parity and its checksum behind them.
fn carry(bytes: &[u8; 248], words: &mut [u16; 262]) {
    let _ = anc::sound_words(&codeword(bytes), &mut words[7..261]);
    words[261] = anc::checksum(&words[3..261]);
}

// A fresh desk's packet with four counters in it, 0, 7, 0 and 9, from this byte on, counted from 0. Its parity and its checksum are right.
fn with_counters(first: u8) -> [u16; 262] {
    let mut words = [0; 262];
    let desk = day::fresh();
    desk.send(&mut words);
    let mut bytes = desk.bytes;
    let at = usize::from(first);
    day::change(&mut bytes, at + 1, 7);
    day::change(&mut bytes, at + 3, 9);
    carry(&bytes, &mut words);
    words
}

// The number and the place of a refusal; 0 and 0 where there is none.
#[derive(Clone, Copy, Debug, PartialEq, Eq)]
pub(crate) struct Told {
    pub number: u64,
    pub place: u64,
}

// What reading says of the packet with counters from this byte on, once three of its words were changed on the way.
pub(crate) fn read_with(first: u8) -> Told {
    let mut words = with_counters(first);
    day::change(&mut words, 7, 0x000);
    day::change(&mut words, 70, 0x001);
    day::change(&mut words, 260, 0x3FF);
    let told = AyPacket::from(reading::read_packet(&words));
    Told {
        number: u64::from(told.number),
        place: u64::from(told.place),
    }
}

// How many packets a follower has refused; 255 where it does not show the desk's record.
fn refused(desk: Desk, follower: Follower) -> u64 {
    if follower.shown() == desk.bytes {
        u64::from(follower.refused)
    } else {
        255
    }
}

// The same of a fresh desk and a follower that heard its packet and then the one with counters.
pub(crate) fn followed_with(first: u8) -> u64 {
    let mut words = [0; 262];
    let desk = day::fresh();
    desk.send(&mut words);
    let before = Follower::open().follow(&words).follower;
    let after = before.follow(&with_counters(first)).follower;
    refused(desk, after)
}

// A fresh desk with these bytes in place of its own, and this CI: no opening leads to it.
fn by_hand(bytes: [u8; 248], ci: u8) -> Desk {
    Desk {
        bytes,
        ci,
        ..day::fresh()
    }
}

// How many of the words of two packets are equal.
fn equal(a: &[u16], b: &[u16]) -> u64 {
    a.iter().zip(b).filter(|(x, y)| x == y).count() as u64
}

// How many words that a desk with the counters in its bytes sends, with CI 160, are those of the packet with them, which has the index 0.
pub(crate) fn sent_with(first: u8) -> u64 {
    let theirs = with_counters(first);
    let mut bytes = [0; 248];
    let _ = anc::low_bytes(&theirs[7..255], &mut bytes);
    let mut words = [0; 262];
    by_hand(bytes, 160).send(&mut words);
    equal(&words, &theirs)
}
