// The ticks of refused records.
ghost use Rattle.std.specs.Prelude.{◌≡◌};
ghost use Rattle.text.specs.Put.{came};
ghost use Rattle.text.specs.Pieces.{puts};
ghost use Rattle.ride_drawing.specs.declared.Pen.{Pen};
ghost use Rattle.ride_drawing.specs.Element.{pieces};
ghost use Rattle.ride_drawing.specs.Ticks.{on_the_ticks, draw_refused, ticked, one_tick, ticks_at};

use crate::Pen;
use crate::signs::put_sign;
use group::Group;
use ride::Line;
use text::{put, put_number};

// The tick of a refused record, over those that lie there.
fn put_tick(pen: Pen, odometer: u32, closed: Group, line: Line, buf: &mut [u8], at: usize) -> usize
    ensures { came result buf.new ≡ puts (pieces (on_the_ticks pen odometer closed line)) buf.old at }
{
    let up = 5 * pen.ticks as u64;
    let a = put_number(b"<g transform='translate(0 -", up, buf, at);
    let b = put(b")'>", buf, a);
    let c = put_sign(closed, line, pen.edge, odometer as u64, buf, b);
    put(b"</g>\n", buf, c)
}

// A refused record: on the pen's strip, or in the row at the head.
pub fn put_refused(
    pen: Pen,
    odometer: u32,
    closed: Group,
    line: Line,
    buf: &mut [u8],
    at: usize,
) -> usize
    ensures { came result buf.new ≡ puts (pieces (draw_refused pen odometer closed line)) buf.old at }
{
    if pen.is_open {
        return put_tick(pen, odometer, closed, line, buf, at);
    }
    let a = put(b"<svg class='r' viewBox='93 206 14 14'>", buf, at);
    let b = put_sign(closed, line, 0, 0, buf, a);
    put(b"</svg>\n", buf, b)
}

// The pen with so many ticks under the next one.
pub fn ticked(ticks: u8, pen: Pen) -> Pen
    ensures { result ≡ ticked ticks pen }
{
    Pen {
        edge: pen.edge,
        from: pen.from,
        is_open: pen.is_open,
        ticks,
    }
}

// One tick more, or the first again.
pub fn one_tick(n: u8) -> u8
    ensures { result ≡ one_tick n }
{
    if n < 5 { n + 1 } else { 0 }
}

// The ticks at the odometer after an accepted record.
pub fn ticks_at(pen: Pen, before: u32, after: u32) -> u8
    ensures { result ≡ ticks_at pen before after }
{
    if pen.is_open & (before == after) {
        pen.ticks
    } else {
        0
    }
}
