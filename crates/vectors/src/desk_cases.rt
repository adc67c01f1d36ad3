// Cases that are run: three changed words, six that confess, correction off at opening and at a follower, the end of the history, and the private
// bytes edited and undone.
use crate::day;
use answers::AyTurn;
use desk::Desk;
use follower::Follower;

// Changes three words; none of the new ones is sound.
fn change_three(words: &mut [u16], a: usize, b: usize, c: usize) {
    day::change(words, a, 0x000);
    day::change(words, b, 0x001);
    day::change(words, c, 0x3FF);
}

// How many words are fixed in a fresh desk's packet with three of its words changed; 255 where it is refused.
pub(crate) fn fixed_with(a: usize, b: usize, c: usize) -> u64 {
    let mut words = [0; 262];
    day::fresh().send(&mut words);
    change_three(&mut words, a, b, c);
    fixed(&words)
}

// The same with six of them, the first three protected ones and the last three.
pub(crate) fn fixed_at_both_ends() -> u64 {
    let mut words = [0; 262];
    day::fresh().send(&mut words);
    change_three(&mut words, 7, 8, 9);
    change_three(&mut words, 258, 259, 260);
    fixed(&words)
}

// How many words are fixed in a packet; 255 where it is refused.
fn fixed(words: &[u16]) -> u64 {
    match reading::read_packet(words) {
        Ok(packet) => u64::from(packet.fixed),
        Err(_) => 255,
    }
}

// How many undos are done after some edits, and the number of the refusal that ends them.
#[derive(Clone, Copy, Debug, PartialEq, Eq)]
pub(crate) struct Undone {
    pub count: u64,
    pub number: u64,
}

// A desk after that many edits of the sound mode.
fn edited(edits: usize) -> Desk {
    let mut desk = day::fresh();
    for n in 0..edits {
        desk = desk.edit(6, &[(n % 27) as u8]).desk;
    }
    desk
}

pub(crate) fn undos_after(edits: usize) -> Undone {
    let mut desk = edited(edits);
    for count in 0..100 {
        let told = AyTurn::from(desk.undo());
        let number = u64::from(told.number);
        if number != 0 {
            return Undone { count, number };
        }
        desk = told.desk;
    }
    Undone {
        count: 100,
        number: 0,
    }
}

// The number of the refusal of an opening with correction off; 255 where the record beside it is not that of a fresh desk.
pub(crate) fn opened_off() -> u64 {
    let told = AyTurn::from(Desk::open(false));
    if told.desk.bytes == day::fresh().bytes {
        u64::from(told.number)
    } else {
        255
    }
}

// One if a follower takes the packet of the opening record with correction off, and then shows that record.
pub(crate) fn off_followed() -> u64 {
    let bytes = day::fresh().bytes;
    let mut words = [0; 262];
    let _ = writing::write_packet(false, 0, &bytes, &mut words);
    let followed = Follower::open().follow(&words);
    u64::from(day::agrees(bytes, followed.follower, 0, 0))
}

// The number of the refusal of an edit at a fresh desk with the first `count` of 141 bytes; 0 where there is none, 255 where there are not so many bytes.
pub(crate) fn edit_with(item: u8, count: usize) -> u64 {
    let mut bytes = [0; 141];
    day::fill(&mut bytes, 20261116);
    match bytes.get(..count) {
        Some(first) => u64::from(AyTurn::from(day::fresh().edit(item, first)).number),
        None => 255,
    }
}

// A desk after an edit of the private bytes.
fn with_private(desk: Desk, chance: u64) -> Desk {
    let mut bytes = [0; 141];
    day::fill(&mut bytes, chance);
    desk.edit(13, &bytes).desk
}

// One if two undos after two edits of the private bytes give back, one after the other, the records that were there before.
pub(crate) fn private_undone() -> u64 {
    let fresh = day::fresh();
    let once = with_private(fresh, 1);
    let twice = with_private(once, 2);
    let back = twice.undo().desk;
    let again = back.undo().desk;
    u64::from(back.bytes == once.bytes && again.bytes == fresh.bytes)
}
