// The record: the 248 bytes of a packet's items and reserved area. What they are refused for, the record of some bytes, in which the
// reserved area and every place that isn't read is zero, one item's bytes in it, and the private area, which is item 13, as a part of the
// caller's own bytes.
#![tactic(auto)]

ghost use Rattle.std.specs.Prelude.{◌≡◌, ◌+◌, ◌≤◌, length};
ghost use Rattle.items.specs.Items.{items};
ghost use Rattle.refusal.specs.Checked.{checked_of};
ghost use Rattle.refusal.specs.Run.{first_from};
ghost use Rattle.record.specs.Reserved.{used_at};
ghost use Rattle.record.specs.Record.{broken, record_refusal, bytes_on, private_part, private_start};
ghost use Rattle.record.specs.Stored.{item_lent, item_start, put_refusal, put_leaves, store_refusal, store_leaves};
ghost use Rattle.record.specs.Written.{written_refusal, written};

use refusal::{Reason, Refusal, at, plain, require};

// What the bytes of a record are refused for: another number of them than 248, the first byte of the reserved area that is not zero, or the
// first item whose rule they break.
#[tactic(auto, unfolding(crate::specs::Record::record_refusal, crate::specs::Record::content_refusal, crate::specs::Reserved::reserved_refusal, crate::specs::Reserved::reserved_area))]
pub fn record_refusal(bytes: &[u8]) -> Result<(), Refusal>
    ensures { result ≡ checked_of (record_refusal bytes.now) }
{
    require(bytes.len() == 248, plain(Reason::Size))?;
    first_used(44, &bytes[43..107])?;
    first_broken(bytes)
}

// Of bytes that are numbered on from `first`, the first that is not zero is the refusal.
fn first_used(first: u8, bytes: &[u8]) -> Result<(), Refusal>
    requires { first + length bytes.now ≤ 256 }
    ensures { result ≡ checked_of (first_from used_at first bytes.now) }
{
    for (i, byte) in bytes.iter().enumerate() {
        require(*byte == 0, at(Reason::ReservedArea, first + i as u8))?;
    }
    Ok(())
}

// The first item of 248 bytes whose rule they break is the refusal.
#[tactic(auto, using(crate::proofs::Laws::Checks::six_checks))]
fn first_broken(bytes: &[u8]) -> Result<(), Refusal>
    requires { length bytes.now ≡ 248 }
    ensures { result ≡ checked_of (broken items bytes.now) }
{
    let time = *bytes[8..17].as_array().unwrap();
    let current = *bytes[17..21].as_array().unwrap();
    let next = *bytes[21..25].as_array().unwrap();
    require(rules::station(&bytes[0..8]), at(Reason::Station, 1))?;
    require(rules::time(time), at(Reason::Time, 9))?;
    require(rules::picture(current), at(Reason::Picture, 18))?;
    require(rules::picture(next), at(Reason::Picture, 22))?;
    require(rules::sound_byte(bytes[26]), at(Reason::Sound, 27))?;
    require(rules::sound_byte(bytes[27]), at(Reason::Sound, 28))
}

// Writes the record of 248 bytes over a buffer of 248. A refusal leaves `out` as it was.
#[tactic(auto, unfolding(crate::specs::Written::written_refusal, crate::specs::Written::written))]
pub fn write_record(bytes: &[u8], out: &mut [u8]) -> Result<(), Refusal>
    ensures { (result ≡ checked_of (written_refusal bytes.now (length out.old))) × (out.new ≡ written bytes.now out.old) }
{
    require(bytes.len() == 248, plain(Reason::Size))?;
    require(out.len() == 248, plain(Reason::Room))?;
    let current = rules::picture_clean(*bytes[17..21].as_array().unwrap());
    let next = rules::picture_clean(*bytes[21..25].as_array().unwrap());
    out.copy_from_slice(bytes);
    out[17..21].copy_from_slice(&current);
    out[21..25].copy_from_slice(&next);
    out[43..107].fill(0);
    Ok(())
}

// The private area of 248 bytes, as the part of the caller's own bytes that it is; of any other number of bytes, an empty part.
#[tactic(auto, unfolding(crate::specs::Record::private_part, crate::specs::Record::private_start))]
pub fn private_part(bytes: &[u8]) -> &[u8]
    ensures { (result.now ≡ private_part bytes.now) × (result.ref_ptr ≡ bytes_on (private_start bytes.now) bytes.entry.ref_ptr) }
{
    if bytes.len() == 248 {
        &bytes[107..]
    } else {
        &bytes[..0]
    }
}

// The item's part of 248 bytes, of the caller's own; an empty part where there is no such item, or another number of bytes.
pub fn item_part(number: u8, bytes: &[u8]) -> &[u8]
    ensures { (result.now ≡ item_lent number bytes.now) × (result.ref_ptr ≡ bytes_on (item_start number bytes.now) bytes.entry.ref_ptr) }
{
    match items::item_place(number) {
        Ok(place) if bytes.len() == 248 => {
            let start = place.first - 1;
            &bytes[start..start + place.length]
        }
        _ => &bytes[..0],
    }
}

// Puts the bytes, as they are, into the item's place in a record of 248 bytes. A refusal leaves the record as it was. Inlined, as is `store_item`: where
// the compiler sees whose the two buffers are, the copy needs no `memmove`, and the archive for C none from outside.
#[inline(always)]
#[tactic(auto, using(crate::proofs::Laws::Stored::putting), unfolding(crate::specs::Stored::put_leaves))]
pub fn put_item(number: u8, bytes: &[u8], out: &mut [u8]) -> Result<(), Refusal>
    ensures { (result ≡ checked_of (put_refusal number bytes.now (length out.old))) × (out.new ≡ put_leaves number bytes.now out.old) }
{
    let place = items::item_place(number)?;
    require(bytes.len() == place.length, plain(Reason::Size))?;
    require(out.len() == 248, plain(Reason::Room))?;
    let start = place.first - 1;
    out[start..start + place.length].copy_from_slice(bytes);
    Ok(())
}

// Checks the bytes given for an item, and stores them in its place in a record of 248 bytes with every place that isn't read set to
// zero. A refusal leaves the record as it was.
#[inline(always)]
#[tactic(auto, unfolding(crate::specs::Stored::store_refusal, crate::specs::Stored::store_leaves))]
pub fn store_item(number: u8, bytes: &[u8], out: &mut [u8]) -> Result<(), Refusal>
    ensures { (result ≡ checked_of (store_refusal number bytes.now (length out.old))) × (out.new ≡ store_leaves number bytes.now out.old) }
{
    items::item_refusal(number, bytes)?;
    if items::is_picture(number) {
        let clean = rules::picture_clean(*bytes.as_array().unwrap());
        return put_item(number, &clean, out);
    }
    put_item(number, bytes, out)
}
