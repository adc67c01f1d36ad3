// What is printed of a field: `refused N P` alone, or its head, its packet, and each item's record bytes.
#![tactic(auto)]

pub mod page;

ghost use Rattle.std.specs.Prelude.{◌≡◌, ◌≤◌, length};
ghost use Rattle.lines.specs.Text.{places, blank, written};
ghost use Rattle.lines.specs.Shown.{three_line, refused_line, field_line, packet_line, item_line, item_lines, numbers, accepted_of, shown};

use b40::Head;
use page::Page;
use reading::Packet;
use refusal::Refusal;

// A line of three numbers.
#[tactic(auto, using(crate::proofs::Laws::Page::parts_written), unfolding(crate::specs::Shown::three_line))]
fn write_three(page: &mut Page, word: &[u8], a: u16, b: u16, c: u16)
    ensures { page.new ≡ written page.old (three_line word.now a b c) }
{
    page.write(word);
    page.write_number(a);
    page.write(b" ");
    page.write_number(b);
    page.write(b" ");
    page.write_number(c);
    page.write(b"\n");
}

// The page of a refusal.
fn refused(why: Refusal) -> Page
    ensures { result ≡ written blank (refused_line why) }
{
    let mut page = Page::blank();
    page.write(b"refused ");
    page.write_number(u16::from(u8::from(why.reason)));
    page.write(b" ");
    page.write_number(u16::from(why.place));
    page.write(b"\n");
    page
}

// Y/C, line, offset.
#[tactic(auto, unfolding(crate::specs::Shown::field_line, crate::specs::Shown::field_word))]
fn write_field(page: &mut Page, head: Head)
    ensures { page.new ≡ written page.old (field_line head.yc head.line head.offset) }
{
    write_three(page, b"field ", u16::from(head.yc), head.line, head.offset);
}

// Correction, CI, fixed.
#[tactic(auto, unfolding(crate::specs::Shown::packet_line, crate::specs::Shown::packet_word))]
fn write_packet(page: &mut Page, packet: Packet)
    ensures { page.new ≡ written page.old (packet_line packet) }
{
    write_three(
        page,
        b"packet ",
        u16::from(packet.correction),
        u16::from(packet.ci),
        u16::from(packet.fixed),
    );
}

// An item's number and its record bytes.
#[tactic(auto, using(crate::proofs::Laws::Page::parts_written), unfolding(crate::specs::Shown::item_line))]
fn write_item(page: &mut Page, number: u8, rec: &[u8])
    ensures { page.new ≡ written page.old (item_line rec.now number) }
{
    page.write_number(u16::from(number));
    page.write_bytes(record::item_part(number, rec));
    page.write(b"\n");
}

// The thirteen items.
#[tactic(auto, using(crate::proofs::Laws::Shown::items_written))]
fn write_items(page: &mut Page, rec: &[u8])
    ensures { page.new ≡ written page.old (item_lines numbers rec.now) }
{
    for number in 1..=13 {
        write_item(page, number, rec);
    }
}

// The page of a field that is not refused: its head, its packet, and its items.
fn accepted(field: &[u8]) -> Result<Page, Refusal>
    ensures { result ≡ accepted_of field.now }
{
    let mut words = [0; 262];
    let head = b40::unpack(field, &mut words)?;
    let mut rec = [0; 248];
    let packet = reading::read_packet_into(&words, &mut rec)?;
    let mut page = Page::blank();
    write_field(&mut page, head);
    write_packet(&mut page, packet);
    write_items(&mut page, &rec);
    Ok(page)
}

// The page of a field. What is written lies within its places, so that a caller can hand it on.
pub fn show(field: &[u8]) -> Page
    ensures { (result ≡ shown field.now) × (length result.bytes ≡ places) × (result.length ≤ places) }
{
    match accepted(field) {
        Ok(page) => page,
        Err(why) => refused(why),
    }
}
