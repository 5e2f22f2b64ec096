// A contact as strips of its bits, for a page to look at: a waveform, and boxes for the words of
// its telegrams.
// Promises: what stands in the page for a contact is fixed to the letter; each piece is put whole
// or not at all; bytes around it stay.
// Specification: specs/Strips.antt (what is drawn), specs/Laws.antt (a box at each place, on a
// strip, whole; nothing is left out); pieces in a buffer are `text`'s specs/Pieces.antt.
#![tactic(auto)]

ghost use Rattle.std.specs.Prelude.{◌≡◌};
ghost use Rattle.text.specs.Put.{came};
ghost use Rattle.text.specs.Pieces.{puts};
ghost use Rattle.contact_drawing.specs.Strips.{strips};

mod boxes;
mod picture;
mod sums;
mod wave;

use contact::Judged;
use text::put;

// What stands in the page for the contact of so many bits that bit `end` of the line closes, whose
// bits are those of the buffer `bits` from bit `first` on, into buf from `at` on, and the place
// after it; a piece without room is left out.
pub fn draw(
    end: u64,
    length: usize,
    judged: Judged,
    bits: &[u8],
    first: u8,
    s: u8,
    t: u8,
    buf: &mut [u8],
    at: usize,
) -> usize
    ensures { came result buf.new ≡ puts (strips end length judged bits.now first s t) buf.old at }
{
    let a = put(b"<h2>", buf, at);
    let b = antenna_text::put_closed(end, length, judged, buf, a);
    let c = put(b"</h2>\n", buf, b);
    let d = picture::put_cut(length, buf, c);
    let start = antenna_text::first_bit(end as usize, length);
    picture::put_picture(
        bits,
        first as usize,
        start,
        sums::drawn(length),
        s,
        t,
        buf,
        d,
    )
}
