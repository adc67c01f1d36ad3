// The calls for C: numbers, lent slices and plain structs, each under its plain name; `capi_c` exports them, since no crate is both a library and
// an archive. What they say stands in include/aynirukh.h.
#![tactic(auto)]

ghost use Rattle.std.specs.Prelude.{◌≡◌, length};
ghost use Rattle.anc.specs.Word.{word_of, checksum_of};
ghost use Rattle.soundness.specs.Check.{soundness_of};
ghost use Rattle.rs.specs.Check.{verdict_of};
ghost use Rattle.record.specs.Record.{record_refusal};
ghost use Rattle.writing.specs.Writing.{write_refusal};
ghost use Rattle.writing.specs.Written.{write_leaves};
ghost use Rattle.reading.specs.Answer.{reading_of, reading_into_of, read_leaves};
ghost use Rattle.repair.specs.Repair.{repaired_of, repair_leaves};
ghost use Rattle.desk.specs.Desk.{opened, edited, undone, sent, send_leaves};
ghost use Rattle.follower.specs.Follower.{followed, shown_refusal, shown_leaves, opened as nothing_arrived};
ghost use Rattle.b40.specs.Packing.{pack_refusal, pack_leaves};
ghost use Rattle.b40.specs.Unpacking.{unpacked_of, unpack_leaves};
ghost use Rattle.answers.specs.Answers.{answer_by, word_from, verdict_from, packet_from, repaired_from, field_from, turn_from, followed_from};

use answers::{AyAnswer, AyField, AyFollowed, AyPacket, AyRepaired, AyTurn, AyVerdict, AyWord};
use desk::Desk;
use follower::Follower;

// ---- words

// The sound word that carries a byte.
pub fn ay_word_of(byte: u8) -> u16
    ensures { result ≡ word_of byte }
{
    anc::word_of(byte)
}

// The word check: which of b8 and b9 are wrong.
pub fn ay_check_word(word: u16) -> AyWord
    ensures { result ≡ word_from (soundness_of word) }
{
    AyWord::from(soundness::check_word(word))
}

// The checksum word of a run of words.
pub fn ay_checksum(words: &[u16]) -> u16
    ensures { result ≡ checksum_of words.now }
{
    anc::checksum(words)
}

// ---- packet and record

// Writes the packet of the bytes' record. A refusal leaves `out` as it was.
#[tactic(auto, unfolding(writing::specs::Written::written_of))]
pub fn ay_write_packet(correction: bool, ci: u8, bytes: &[u8], out: &mut [u16]) -> AyAnswer
    ensures { (result ≡ answer_by (write_refusal ci bytes.now (length out.old))) × (out.new ≡ write_leaves correction ci bytes.now out.old) }
{
    AyAnswer::from(writing::write_packet(correction, ci, bytes, out))
}

// Reads a packet.
pub fn ay_read_packet(words: &[u16]) -> AyPacket
    ensures { result ≡ packet_from (reading_of words.now) }
{
    AyPacket::from(reading::read_packet(words))
}

// Reads a packet, and leaves its record in `out`. A refusal leaves `out` as it was.
pub fn ay_read_packet_into(words: &[u16], out: &mut [u8]) -> AyPacket
    ensures { (result ≡ packet_from (reading_into_of words.now (length out.old))) × (out.new ≡ read_leaves words.now out.old) }
{
    AyPacket::from(reading::read_packet_into(words, out))
}

// Rewrites the 254 protected words. A refusal leaves `out` as it was.
pub fn ay_repair(words: &[u16], out: &mut [u16]) -> AyRepaired
    ensures { (result ≡ repaired_from (repaired_of words.now (length out.old))) × (out.new ≡ repair_leaves words.now out.old) }
{
    AyRepaired::from(repair::repair(words, out))
}

// Is a block of 254 bytes a codeword?
pub fn ay_check_codeword(block: &[u8]) -> AyVerdict
    ensures { result ≡ verdict_from (verdict_of block.now) }
{
    AyVerdict::from(rs::check_codeword(block))
}

// What the bytes of a record are refused for.
pub fn ay_record_refusal(bytes: &[u8]) -> AyAnswer
    ensures { result ≡ answer_by (record_refusal bytes.now) }
{
    AyAnswer::from(record::record_refusal(bytes))
}

// ---- field

// Packs a packet's words into a field. A refusal leaves `out` as it was.
#[tactic(auto, unfolding(b40::specs::Packing::packed_of))]
pub fn ay_pack(yc: bool, line: u16, offset: u16, words: &[u16], out: &mut [u8]) -> AyAnswer
    ensures { (result ≡ answer_by (pack_refusal line offset words.now (length out.old))) × (out.new ≡ pack_leaves yc line offset words.now out.old) }
{
    AyAnswer::from(b40::pack(yc, line, offset, words, out))
}

// Unpacks a field into the words of its packet. A refusal leaves `out` as it was.
pub fn ay_unpack(field: &[u8], out: &mut [u16]) -> AyField
    ensures { (result ≡ field_from (unpacked_of field.now (length out.old))) × (out.new ≡ unpack_leaves field.now out.old) }
{
    AyField::from(b40::unpack(field, out))
}

// ---- desk

// A desk with the opening record, CI 0 and no history; with correction on only.
pub fn ay_desk_open(correction: bool) -> AyTurn
    ensures { result ≡ turn_from (opened correction) }
{
    AyTurn::from(Desk::open(correction))
}

// Checks the bytes given for an item and stores them, one step more.
pub fn ay_desk_edit(desk: Desk, item: u8, bytes: &[u8]) -> AyTurn
    ensures { result ≡ turn_from (edited desk item bytes.now) }
{
    AyTurn::from(desk.edit(item, bytes))
}

// Puts back the bytes before the latest step.
pub fn ay_desk_undo(desk: Desk) -> AyTurn
    ensures { result ≡ turn_from (undone desk) }
{
    AyTurn::from(desk.undo())
}

// Writes the packet of the desk's bytes as they stand, and counts the index on. A refusal leaves `out` as it was.
pub fn ay_desk_send(desk: Desk, out: &mut [u16]) -> AyTurn
    ensures { (result ≡ turn_from (sent desk (length out.old))) × (out.new ≡ send_leaves desk out.old) }
{
    AyTurn::from(desk.send(out))
}

// ---- follower

// Nothing has arrived.
pub fn ay_follower_open() -> Follower
    ensures { result ≡ nothing_arrived }
{
    Follower::open()
}

// Takes a packet in.
pub fn ay_follower_follow(follower: Follower, words: &[u16]) -> AyFollowed
    ensures { result ≡ followed_from (followed follower words.now) }
{
    AyFollowed::from(follower.follow(words))
}

// Leaves in `out` the record that the follower shows. A refusal leaves `out` as it was.
pub fn ay_follower_shown(follower: Follower, out: &mut [u8]) -> AyAnswer
    ensures { (result ≡ answer_by (shown_refusal (length out.old))) × (out.new ≡ shown_leaves follower out.old) }
{
    AyAnswer::from(follower.shown_into(out))
}
