// One B40 field that carries one packet: packed from the packet's 262 words into 328 bytes, and unpacked from them.
#![tactic(auto)]

mod field;

ghost use Rattle.std.specs.Prelude.{◌≡◌, length};
ghost use Rattle.refusal.specs.Checked.{checked_of};
ghost use Rattle.b40.specs.Packing.{pack_refusal, packed_of, pack_leaves};
ghost use Rattle.b40.specs.Unpacking.{unpacked_of, unpack_leaves};

use refusal::{Reason, Refusal, plain, require};

// Packs a packet's words, with Y/C, line and offset, into a field. A refusal leaves `out` as it was.
#[tactic(auto, unfolding(crate::specs::Packing::packed_of, crate::specs::Packing::pack_leaves))]
pub fn pack(yc: bool, line: u16, offset: u16, words: &[u16], out: &mut [u8]) -> Result<(), Refusal>
    ensures { (result ≡ packed_of line offset words.now (length out.old)) × (out.new ≡ pack_leaves yc line offset words.now out.old) }
{
    check_packing(line, offset, words, out.len())?;
    field::write_bytes(
        yc,
        line,
        offset,
        words.try_into().unwrap(),
        out.as_mut_array().unwrap(),
    );
    Ok(())
}

// What packing is refused for, with room for so many bytes.
#[tactic(auto, unfolding(crate::specs::Packing::pack_refusal))]
fn check_packing(line: u16, offset: u16, words: &[u16], room: usize) -> Result<(), Refusal>
    ensures { result ≡ checked_of (pack_refusal line offset words.now room) }
{
    require(words.len() == 262, plain(Reason::Length))?;
    require(anc::narrow(words), plain(Reason::Wide))?;
    require(anc::has_flag(words), plain(Reason::Flag))?;
    require(field::is_place(line, offset), plain(Reason::FieldHead))?;
    require(room == 328, plain(Reason::Room))
}

// What stands in a field before its words.
#[derive(Clone, Copy, Debug, PartialEq, Eq)]
pub struct Head {
    pub yc: bool,
    pub line: u16,
    pub offset: u16,
}

// Unpacks a field into the 262 words of its packet. A refusal leaves `out` as it was.
pub fn unpack(field: &[u8], out: &mut [u16]) -> Result<Head, Refusal>
    ensures { (result ≡ unpacked_of field.now (length out.old)) × (out.new ≡ unpack_leaves field.now out.old) }
{
    require(field.len() == 328, plain(Reason::FieldLength))?;
    let field: &[u8; 328] = field.try_into().unwrap();
    let first = field::first(field);
    let line = ((first >> 14) % 2048) as u16;
    let offset = ((first >> 2) % 4096) as u16;
    let is_head = (first >> 26 == 0) & field::is_place(line, offset);
    require(is_head, plain(Reason::FieldHead))?;
    require(out.len() == 262, plain(Reason::Room))?;
    field::write_words(field, out.as_mut_array().unwrap());
    let yc = (first >> 25) % 2 == 1;
    Ok(Head { yc, line, offset })
}
