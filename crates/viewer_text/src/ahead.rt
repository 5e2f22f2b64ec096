// The record that a viewer stands before.
ghost use Rattle.std.specs.Prelude.{◌≡◌};
ghost use Rattle.text.specs.Put.{put, came};
ghost use Rattle.viewer_text.specs.Text.{next_is, next};

use text::put;
use trace_text::{Said, What};

// The line of what comes next.
fn put_ahead(place: u32, what: What, buf: &mut [u8], at: usize) -> usize
    ensures { came result buf.new ≡ put (next_is place what) buf.old at }
{
    let mut space = [0u8; 96];
    let a = put(b"  next ", &mut space, 0);
    let b = trace_text::put_thing(place, what, &mut space, a);
    let n = put(b"\n", &mut space, b);
    put(&space[..n], buf, at)
}

// The line of the record that comes next where so many lie before, or that there is none, into buf
// from `at` on, and the place after it; without room nothing is written, and the answer is `at`.
pub fn put_next(trace: &[u8], number: usize, buf: &mut [u8], at: usize) -> usize
    ensures { came result buf.new ≡ put (next trace.now number) buf.old at }
{
    if number >= trace.len() / 8 {
        return put(b"  no further record\n", buf, at);
    }
    let said = trace_text::thing_at(trace, number * 8);
    match said {
        Said::Nothing => put(b"  no further record\n", buf, at),
        Said::Thing { place, what } => put_ahead(place, what, buf, at),
        Said::Unreadable => put(b"  no further record\n", buf, at),
    }
}
