// Writing a control packet, with an index, and with or without correction: the 262 words of 248 bytes' record, or of the bytes as they stand. The two go
// one by one, as the interface and the definitions have them.
#![tactic(auto)]

mod parts;

ghost use Rattle.std.specs.Prelude.{◌≡◌, length};
ghost use Rattle.refusal.specs.Checked.{checked_of};
ghost use Rattle.writing.specs.Writing.{given_refusal};
ghost use Rattle.writing.specs.Written.{written_of, write_leaves, layout_of, layout_leaves};

use refusal::{Reason, Refusal, require};

// Writes the packet of the bytes' record, with an index and with or without correction. A refusal leaves `out` as it was.
pub fn write_packet(correction: bool, ci: u8, bytes: &[u8], out: &mut [u16]) -> Result<(), Refusal>
    ensures { (result ≡ written_of ci bytes.now (length out.old)) × (out.new ≡ write_leaves correction ci bytes.now out.old) }
{
    check_given(ci, bytes)?;
    record::record_refusal(bytes)?;
    let mut rec = [0u8; 248];
    record::write_record(bytes, &mut rec).unwrap();
    write_layout(correction, ci, &rec, out)
}

// Writes the packet of the bytes as they stand, neither checked nor cleaned. A refusal leaves `out` as it was.
#[tactic(auto, unfolding(crate::specs::Written::layout_of, crate::specs::Written::layout_leaves, crate::specs::Writing::layout_refusal, crate::specs::Writing::given_refusal))]
pub fn write_layout(correction: bool, ci: u8, bytes: &[u8], out: &mut [u16]) -> Result<(), Refusal>
    ensures { (result ≡ layout_of ci bytes.now (length out.old)) × (out.new ≡ layout_leaves correction ci bytes.now out.old) }
{
    check_given(ci, bytes)?;
    require(out.len() == 262, refusal::plain(Reason::Room))?;
    parts::fill(
        correction,
        ci,
        bytes.try_into().unwrap(),
        out.as_mut_array().unwrap(),
    );
    Ok(())
}

// Another number of bytes than 248, or an index over 15, is the refusal.
#[tactic(auto, unfolding(crate::specs::Writing::given_refusal))]
fn check_given(ci: u8, bytes: &[u8]) -> Result<(), Refusal>
    ensures { result ≡ checked_of (given_refusal ci bytes.now) }
{
    require(bytes.len() == 248, refusal::plain(Reason::Size))?;
    require(ci <= 15, refusal::plain(Reason::Index))
}
