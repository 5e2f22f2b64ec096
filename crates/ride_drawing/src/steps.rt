// What a record adds, and the end of the last strip.
ghost use Rattle.std.specs.Prelude.{◌≡◌};
ghost use Rattle.text.specs.Put.{came};
ghost use Rattle.ride.specs.declared.Line.{Line};
ghost use Rattle.ride.specs.Says.{says_wrong, says_lines, says_given};
ghost use Rattle.ride_drawing.specs.declared.Pen.{Pen};
ghost use Rattle.text.specs.Pieces.{puts};
ghost use Rattle.ride_drawing.specs.Element.{pieces};
ghost use Rattle.ride_drawing.specs.Drawing.{draw_accepted, draw_step, pen_after, last_strip, the_rest};

use crate::lines::{after_lines, put_lines};
use crate::places::{arrive, certain};
use crate::spans::put_span;
use crate::ticks::{one_tick, put_refused, ticked, ticks_at};
use crate::ways::{pass, put_way_past};
use crate::{Pen, Plan};
use group::Group;
use ride::{Line, Lines, Ride, Wrong};
use text::put;

// The number of a refusal.
fn refusal(wrong: Wrong) -> u8
    ensures { result ≡ says_wrong wrong }
{
    match wrong {
        Wrong::Malformed => 16,
        Wrong::TooHigh => 18,
        Wrong::TooLow => 17,
    }
}

// The lines of an accepted record, and the way to its odometer.
fn put_accepted(
    plan: Plan,
    pen: Pen,
    ride: Ride,
    lines: Lines,
    closed: Group,
    after: Ride,
    buf: &mut [u8],
    at: usize,
) -> usize
    ensures { came result buf.new ≡ puts (pieces (draw_accepted plan pen ride (says_lines lines) closed after)) buf.old at }
{
    let a = put_lines(plan, pen, ride, closed, lines, buf, at);
    let there = after_lines(pen, lines, ride.odometer);
    let known = after.known;
    put_way_past(
        plan,
        there,
        after.odometer as u64,
        certain(after),
        known,
        buf,
        a,
    )
}

// What a record adds.
pub fn put_step(
    plan: Plan,
    pen: Pen,
    ride: Ride,
    number: u64,
    given: Result<Lines, Wrong>,
    closed: Group,
    after: Ride,
    buf: &mut [u8],
    at: usize,
) -> usize
    ensures { came result buf.new ≡ puts (pieces (draw_step plan pen ride number (says_given given) closed after)) buf.old at }
{
    match given {
        Err(wrong) => put_refused(
            pen,
            ride.odometer,
            closed,
            Line::Record(number, refusal(wrong)),
            buf,
            at,
        ),
        Ok(lines) => put_accepted(plan, pen, ride, lines, closed, after, buf, at),
    }
}

// The pen after a record.
pub fn pen_after(pen: Pen, odometer: u32, given: Result<Lines, Wrong>, after: Ride) -> Pen
    ensures { result ≡ pen_after pen odometer (says_given given) after }
{
    match given {
        Err(_) => ticked(one_tick(pen.ticks), pen),
        Ok(lines) => {
            let last = after_lines(pen, lines, odometer);
            let there = arrive(last, after.odometer as u64, certain(after));
            ticked(ticks_at(pen, odometer, after.odometer), there)
        }
    }
}

// The end of the last strip.
fn put_last(pen: Pen, ride: Ride, buf: &mut [u8], at: usize) -> usize
    ensures { came result buf.new ≡ puts (last_strip pen ride) buf.old at }
{
    if !pen.is_open {
        return put(b"</p>\n", buf, at);
    }
    let known = ride.known;
    let a = put_span(pen.edge, pen.from, ride.odometer as u64, known, buf, at);
    put(b"</svg></div>\n", buf, a)
}

// The entries that are left, and the end of the last strip.
pub fn put_rest(plan: Plan, pen: Pen, ride: Ride, buf: &mut [u8], at: usize) -> usize
    ensures { came result buf.new ≡ puts (pieces (the_rest plan pen ride)) buf.old at }
{
    let known = ride.known;
    let went = pass(plan, pen, 4294967295, ride.odometer as u64, known, buf, at);
    let there = went.pen;
    put_last(there, ride, buf, went.next)
}
