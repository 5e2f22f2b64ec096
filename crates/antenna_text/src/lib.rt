// The lines of contacts that are heard piece by piece: those of `contact_text`, with each start
// counted from the first bit of the whole line.
// Promises: a line is written to the letter and whole, or not at all; bytes around it stay.
// Specification: specs/Lines.antt (the words); what listening in pieces comes to is
// crates/antenna_text_laws; a text in a buffer is `text`'s specs/Put.antt.
#![tactic(auto)]

ghost use Rattle.std.specs.Prelude.{◌≡◌};
ghost use Rattle.text.specs.Put.{put, came};
ghost use Rattle.antenna_text.specs.Lines.{told_line, closed_before};

mod placing;

use contact::Judged;
pub use placing::{first_bit, number_at};

// The line of a contact of so many bits that this bit of the line closes, with its first place
// counted from its first bit, into buf from `at` on, and the place after it; without room buf stays
// as it is, and the answer is `at`.
pub fn put_closed(end: u64, bits: usize, judged: Judged, buf: &mut [u8], at: usize) -> usize
    ensures { came result buf.new ≡ put (told_line (closed_before end bits judged)) buf.old at }
{
    let start = first_bit(end as usize, bits);
    contact_text::put_contact(start, bits, placing::placed(start, judged), buf, at)
}
