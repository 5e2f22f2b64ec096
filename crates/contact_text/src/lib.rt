// What was heard on a recorded line, as lines of text.
// Promises: a line is written to the letter and whole, or not at all; bytes around it stay.
// Specification: specs/Lines.antt (the words); a text in a buffer is `text`'s specs/Put.antt.
#![tactic(auto)]

ghost use Rattle.std.specs.Prelude.{◌≡◌};
ghost use Rattle.text.specs.Put.{put, came};
ghost use Rattle.contact_text.specs.Lines.{heard};

mod lines;

use contact::Judged;

// The line of a contact, to the letter, into buf from `at` on, all other bytes as they were, and
// the place after it; without room nothing is written, and the answer is `at`.
pub fn put_contact(start: usize, bits: usize, judged: Judged, buf: &mut [u8], at: usize) -> usize
    ensures { came result buf.new ≡ put (heard start bits judged) buf.old at }
{
    let mut space = [0u8; 192];
    let n = lines::put_heard(start, bits, judged, &mut space, 0);
    text::put(&space[..n], buf, at)
}
