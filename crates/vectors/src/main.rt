// Runs what is compared and not proved: parities, repairs and checks that another program worked out, the same repairs by the plain repairer,
// three changed words at both ends of the codeword and six that confess, correction off at opening and at a follower, the end of the history, the
// private bytes edited and undone, a foreign encoder's counters, read and sent, and a day of a desk and a follower over a damaged line. Prints
// what was compared.
#![tactic(auto)]

mod day;
mod desk_cases;
mod foreign;
mod outside;

use std::io;
use std::io::Print;

// A line: a word and a number.
fn line<P: Print>(to: &P, word: &str, n: u64) -> io::Result<()> {
    println!(to; "{word}{n}")
}

fn main(rt: HostRuntime) -> io::Result<()> {
    let mut input = rt.reader();
    line(
        &rt,
        "parities equal, of 200: ",
        outside::parities(&mut input)?,
    )?;
    let light = outside::deliveries(&mut input, 400, false)?;
    line(&rt, "deliveries equal, of 400: ", light.equal)?;
    line(
        &rt,
        "both repairers agree, of 256 with a codeword within three: ",
        light.alike,
    )?;
    let heavy = outside::deliveries(&mut input, 25, true)?;
    line(
        &rt,
        "deliveries with four to eight changes equal, of 25: ",
        heavy.equal,
    )?;
    line(&rt, "both repairers agree, of 25: ", heavy.alike)?;
    line(
        &rt,
        "fixed, first three protected words changed: ",
        desk_cases::fixed_with(7, 8, 9),
    )?;
    line(
        &rt,
        "fixed, last three protected words changed: ",
        desk_cases::fixed_with(258, 259, 260),
    )?;
    line(
        &rt,
        "fixed, six of these that confess: ",
        desk_cases::fixed_at_both_ends(),
    )?;
    line(
        &rt,
        "opening with correction off, refused: ",
        desk_cases::opened_off(),
    )?;
    line(
        &rt,
        "the opening record with correction off is read and shown: ",
        desk_cases::off_followed(),
    )?;
    let undone = desk_cases::undos_after(33);
    line(&rt, "undos after 33 edits: ", undone.count)?;
    line(&rt, "then refused: ", undone.number)?;
    line(
        &rt,
        "item 13 with 141 bytes, refused: ",
        desk_cases::edit_with(13, 141),
    )?;
    line(
        &rt,
        "item 13 with 140 bytes, refused: ",
        desk_cases::edit_with(13, 140),
    )?;
    line(&rt, "item 14, refused: ", desk_cases::edit_with(14, 141))?;
    line(
        &rt,
        "two undos of the private bytes give back what was there: ",
        desk_cases::private_undone(),
    )?;
    let reserved = foreign::read_with(59);
    line(
        &rt,
        "counters in bytes 60 to 63, of which 61 is the first that is not zero, refused: ",
        reserved.number,
    )?;
    line(&rt, "at byte: ", reserved.place)?;
    let last = foreign::read_with(105);
    line(&rt, "a counter in byte 107, refused: ", last.number)?;
    line(&rt, "at byte: ", last.place)?;
    let private = foreign::read_with(106);
    line(
        &rt,
        "counters in bytes 108 and 110, refused: ",
        private.number,
    )?;
    line(
        &rt,
        "the follower's refused packets, its record as it was: ",
        foreign::followed_with(59),
    )?;
    line(
        &rt,
        "words of a desk made by hand with these counters and CI 160, equal to the packet's, of 262: ",
        foreign::sent_with(59),
    )?;
    let day = day::run();
    line(&rt, "a day, packets sent: ", u64::from(day.sent))?;
    line(&rt, "delivered: ", u64::from(day.delivered))?;
    line(&rt, "of them repeats: ", u64::from(day.repeated))?;
    line(&rt, "in these, frames of two: ", u64::from(day.frames))?;
    line(&rt, "missed: ", u64::from(day.missed))?;
    line(
        &rt,
        "deliveries at which desk and follower agreed: ",
        u64::from(day.agreed),
    )?;
    Ok(())
}
