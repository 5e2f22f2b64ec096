// What a terminal shows beside the state: the last lines of the ride, and the records around the
// viewer.
ghost use Rattle.std.specs.Prelude.{◌≡◌, length, ◌-◌};
ghost use Rattle.text.specs.Put.{put, came};
ghost use Rattle.viewer_text.specs.Screen.{lines_from, around, mark, marked, beside};

use text::put;
use trace_text::{Said, What};

// Where the last lines of a text begin, so many of them, or all where it has fewer.
pub fn last_lines(text: &[u8], lines: usize) -> usize
    ensures { result ≡ lines_from (length text.now) lines text.now }
{
    let mut left = lines;
    for i in (0..text.len()).rev() {
        if text[i] == b'\n' {
            if left == 0 {
                return i + 1;
            }
            left -= 1;
        }
    }
    0
}

// What is left of a number, 0 where it is too small.
fn less(number: usize, by: usize) -> usize
    ensures { result ≡ number - by }
{
    if number <= by {
        return 0;
    }
    number - by
}

// The first of the six records around a viewer that so many lie before, of so many: three before it
// and three after, as far as there are.
pub fn first_around(number: usize, count: usize) -> usize
    ensures { result ≡ around number count }
{
    let before = less(number, 3);
    let last = less(count, 6);
    if before <= last {
        return before;
    }
    last
}

// The mark of the record that comes next, and the blanks before the others.
fn put_mark(ahead: bool, buf: &mut [u8]) -> usize
    ensures { came result buf.new ≡ put (mark ahead) buf.old 0 }
{
    if ahead {
        return put(b"> ", buf, 0);
    }
    put(b"  ", buf, 0)
}

// The line of a record, marked or not.
fn put_marked(ahead: bool, number: u64, place: u32, what: What, buf: &mut [u8], at: usize) -> usize
    ensures { came result buf.new ≡ put (marked ahead number place what) buf.old at }
{
    let mut space = [0u8; 136];
    let a = put_mark(ahead, &mut space);
    let n = trace_text::put_record(number, place, what, &mut space, a);
    put(&space[..n], buf, at)
}

// The line of the record at an index, marked where so many records lie before the viewer, into buf
// from `at` on, and the place after it; without room, or where there is no such record, buf stays
// as it is, and the answer is `at`.
pub fn put_beside(trace: &[u8], i: usize, number: usize, buf: &mut [u8], at: usize) -> usize
    ensures { came result buf.new ≡ put (beside trace.now i number) buf.old at }
{
    if i >= trace.len() / 8 {
        return put(b"", buf, at);
    }
    let said = trace_text::thing_at(trace, i * 8);
    match said {
        Said::Nothing => put(b"", buf, at),
        Said::Thing { place, what } => {
            put_marked(i == number, i as u64 + 1, place, what, buf, at)
        }
        Said::Unreadable => put(b"", buf, at),
    }
}
