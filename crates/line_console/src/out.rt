// What stands for contacts, gathered in a buffer and written when it is enough.
ghost use Rattle.std.specs.Prelude.{◌≡◌, ◌<◌, length};

use console::{Stream, System};
use contact::Judged;

// Text in the buffer is written when it has so many bytes: then there is room for what stands for
// one more contact.
const ENOUGH: usize = 32768;

// What is asked for: strips or lines, with this sync pair.
#[derive(Clone, Copy)]
pub struct Wanted {
    pub draws: bool,
    pub s: u8,
    pub t: u8,
}

// How many bytes of text stand in the buffer, and whether all writes so far succeeded.
#[derive(Clone, Copy)]
pub struct Out {
    pub length: usize,
    pub is_good: bool,
}

// Writes the text where it is enough.
fn write(rt: &impl System, out: Out, buf: &[u8]) -> Out
    ensures { result.length < 32768 }
{
    if out.length < ENOUGH {
        return out;
    }
    Out {
        length: 0,
        is_good: flush(rt, out, buf),
    }
}

// What stands for a contact of so many bits that this bit of the line closes, and that begins at
// bit `first` of the bytes kept, after the text that stands, which leaves room for it.
pub fn add(
    rt: &impl System,
    out: Out,
    asked: Wanted,
    end: u64,
    bits: usize,
    judged: Judged,
    kept: &[u8],
    first: u8,
    buf: &mut [u8],
) -> Out
    requires { (out.length < 32768) × (length buf.old ≡ 262144) }
    ensures { result.length < 32768 }
{
    let at = out.length;
    let is_good = out.is_good;
    if asked.draws {
        let length = contact_drawing::draw(
            end, bits, judged, kept, first, asked.s, asked.t, buf, at,
        );
        return write(rt, Out { length, is_good }, buf);
    }
    let length = antenna_text::put_closed(end, bits, judged, buf, at);
    write(rt, Out { length, is_good }, buf)
}

// Writes the text; whether all writes succeeded.
pub fn flush(rt: &impl System, out: Out, buf: &[u8]) -> bool {
    console::write(rt, Stream::Output, buf, out.length) & out.is_good
}

// The line of a refusal that stands by itself; whether it was written.
pub fn refuse(rt: &impl System, number: u8) -> bool {
    let mut line = [0u8; 128];
    let count = refusals::put_refused(number, &mut line, 0);
    console::write(rt, Stream::Output, &line, count)
}
