// A day of a desk and a follower over a damaged line: edits, undos, sends, drops, repeats of a packet and of a frame of two, and in each delivery as
// many bad words as the line may have.
use desk::Desk;
use follower::Follower;

// A packet that was sent: its words, and the record in them.
#[derive(Clone, Copy)]
pub(crate) struct Sent {
    pub words: [u16; 262],
    pub bytes: [u8; 248],
}

// What is counted, the true numbers: of the frames that were repeated too, and of the deliveries at which desk and follower agreed. Then what the line
// stands at, with the packet that was sent last where it came; and desk and follower.
#[derive(Clone, Copy)]
pub(crate) struct Day {
    pub sent: u32,
    pub delivered: u32,
    pub repeated: u32,
    pub frames: u32,
    pub missed: u32,
    pub agreed: u32,
    pub gap: u32,
    pub begun: bool,
    pub chance: u64,
    pub came: Option<Sent>,
    pub desk: Desk,
    pub follower: Follower,
}

// The desk that an opening hands back.
pub(crate) fn fresh() -> Desk {
    Desk::open(true).desk
}

// The next of a run of numbers that look like chance.
fn next(x: u64) -> u64 {
    let a = x ^ (x << 13);
    let b = a ^ (a >> 7);
    b ^ (b << 17)
}

// Puts a byte or a word at a place, where there is one.
pub(crate) fn change<T: Copy>(entries: &mut [T], at: usize, entry: T) {
    if let Some(place) = entries.get_mut(at) {
        *place = entry;
    }
}

// The protected word that chance falls on.
fn place(chance: u64) -> usize {
    (7 + chance % 254) as usize
}

// A word that is not sound: its b8 and b9 are both 0, or both 1.
fn confessing(chance: u64) -> u16 {
    let byte = (chance / 2 % 256) as u16;
    if chance % 2 == 0 { byte } else { byte + 768 }
}

// Changes three protected words to any ten-bit values.
fn any_three(words: &mut [u16], chance: u64) {
    change(words, place(chance), (chance / 7 % 1024) as u16);
    change(words, place(chance / 254), (chance / 11 % 1024) as u16);
    change(words, place(chance / 64516), (chance / 13 % 1024) as u16);
}

// Changes up to six protected words to words that are not sound.
fn six_confess(words: &mut [u16], chance: u64) {
    change(words, place(chance), confessing(chance / 7));
    change(words, place(chance / 3), confessing(chance / 11));
    change(words, place(chance / 254), confessing(chance / 13));
    change(words, place(chance / 762), confessing(chance / 17));
    change(words, place(chance / 64516), confessing(chance / 19));
    change(words, place(chance / 193548), confessing(chance / 23));
}

// Changes two protected words to words that are not sound, and two to sound words of any byte.
fn two_confess(words: &mut [u16], chance: u64) {
    change(words, place(chance), confessing(chance / 7));
    change(
        words,
        place(chance / 254),
        anc::word_of((chance / 11 % 256) as u8),
    );
    change(words, place(chance / 762), confessing(chance / 13));
    change(
        words,
        place(chance / 64516),
        anc::word_of((chance / 17 % 256) as u8),
    );
}

// Changes protected words as the line may: with 2e + f at most 6.
fn damage(words: &mut [u16], chance: u64) {
    match chance % 3 {
        0 => any_three(words, chance / 3),
        1 => six_confess(words, chance / 3),
        _ => two_confess(words, chance / 3),
    }
}

// Fills bytes with a run of numbers that look like chance.
pub(crate) fn fill(bytes: &mut [u8], chance: u64) {
    let mut x = chance;
    for byte in bytes {
        x = next(x);
        *byte = (x % 256) as u8;
    }
}

// An edit of the sound mode, of the triggers or of the private bytes, or an undo.
fn turned(desk: Desk, chance: u64) -> Desk {
    let turn = match chance % 4 {
        0 => desk.edit(6, &[(chance / 4 % 27) as u8]),
        1 => {
            let mut private = [0; 141];
            fill(&mut private, chance);
            desk.edit(13, &private)
        }
        2 => desk.edit(
            9,
            &[chance / 5, chance / 7, chance / 9, chance / 17].map(|n| (n % 256) as u8),
        ),
        _ => desk.undo(),
    };
    turn.desk
}

// Does the follower show this record, with these true counts?
pub(crate) fn agrees(bytes: [u8; 248], follower: Follower, missed: u32, repeated: u32) -> bool {
    follower.shown() == bytes
        && follower.missed == missed
        && follower.repeated == repeated
        && follower.refused == 0
}

impl Day {
    // The packet arrives, damaged; `again` says whether it is a repeat.
    fn arrives(self, packet: Sent, again: bool) -> Self {
        let chance = next(self.chance);
        let mut damaged = packet.words;
        damage(&mut damaged, chance);
        let follower = self.follower.follow(&damaged).follower;
        let repeated = self.repeated.wrapping_add(u32::from(again));
        let agreed = agrees(packet.bytes, follower, self.missed, repeated);
        Day {
            delivered: self.delivered.wrapping_add(1),
            repeated,
            agreed: self.agreed.wrapping_add(u32::from(agreed)),
            gap: 0,
            begun: true,
            chance,
            follower,
            ..self
        }
    }

    // The frame of two packets is repeated, twice.
    fn frame_again(self, earlier: Sent, latest: Sent) -> Self {
        let mut day = self;
        for packet in [earlier, latest, earlier, latest] {
            day = day.arrives(packet, true);
        }
        Day {
            frames: day.frames.wrapping_add(2),
            ..day
        }
    }

    // What the line makes of a packet: it is lost, or it arrives, and then perhaps again, or in a frame with the one before it.
    fn carried(self, packet: Sent, chance: u64) -> Self {
        if chance / 1000 % 4 == 0 && self.gap < 13 {
            return Day {
                gap: self.gap.wrapping_add(1),
                missed: self.missed.wrapping_add(u32::from(self.begun)),
                came: None,
                ..self
            };
        }
        let once = Day {
            came: Some(packet),
            ..self.arrives(packet, false)
        };
        match (chance / 5000 % 3, self.came) {
            (0, _) => once.arrives(packet, true),
            (1, Some(earlier)) => once.frame_again(earlier, packet),
            _ => once,
        }
    }

    // A turn at the desk, a send, and what the line makes of it.
    fn tick(self) -> Self {
        let chance = next(self.chance);
        let desk = turned(self.desk, chance);
        let mut words = [0; 262];
        let sending = desk.send(&mut words);
        let bytes = desk.bytes;
        let packet = Sent { words, bytes };
        let sent = Day {
            sent: self.sent.wrapping_add(1),
            chance,
            desk: sending.desk,
            ..self
        };
        sent.carried(packet, chance)
    }
}

// Two thousand packets.
pub(crate) fn run() -> Day {
    let mut day = Day {
        sent: 0,
        delivered: 0,
        repeated: 0,
        frames: 0,
        missed: 0,
        agreed: 0,
        gap: 0,
        begun: false,
        came: None,
        chance: 20261115,
        desk: fresh(),
        follower: Follower::open(),
    };
    for _ in 0..2000 {
        day = day.tick();
    }
    day
}
