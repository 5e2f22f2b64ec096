// The lines of a record or of the end, drawn.
ghost use Rattle.std.specs.Prelude.{◌≡◌};
ghost use Rattle.text.specs.Put.{came};
ghost use Rattle.ride.specs.Says.{says_lines};
ghost use Rattle.ride.specs.Step.{end};
ghost use Rattle.ride_drawing.specs.declared.Pen.{Pen};
ghost use Rattle.text.specs.Pieces.{puts};
ghost use Rattle.ride_drawing.specs.Element.{pieces};
ghost use Rattle.ride_drawing.specs.Drawing.{is_missed, known_before, on_its_strip, draw_lines, after_lines};

use crate::places::{after_line, arrive, place_of, reached};
use crate::rows::put_extra;
use crate::signs::put_sign;
use crate::spans::{put_band, put_span};
use crate::ways::put_way_past;
use crate::{Pen, Plan};
use group::Group;
use ride::{Known, Line, Lines, Ride};

// Whether a line is that of a missed signal.
fn is_missed(line: Line) -> bool
    ensures { result ≡ is_missed line }
{
    match line {
        Line::Group(_) => false,
        Line::Fault(_, _) => false,
        Line::Missed(_) => true,
        Line::Record(_, _) => false,
        Line::Trace(_) => false,
    }
}

// What was known before a line.
fn put_known(pen: Pen, known: Known, line: Line, place: u64, buf: &mut [u8], at: usize) -> usize
    ensures { came result buf.new ≡ puts (known_before pen known line place) buf.old at }
{
    if is_missed(line) {
        let linking = known.linking;
        return put_band(linking, pen.edge, pen.from, place, buf, at);
    }
    put_span(
        pen.edge,
        pen.from,
        reached(pen, line, place),
        known,
        buf,
        at,
    )
}

// A line on the strip of its place.
fn put_line(
    plan: Plan,
    pen: Pen,
    known: Known,
    closed: Group,
    line: Line,
    place: u64,
    buf: &mut [u8],
    at: usize,
) -> usize
    ensures { came result buf.new ≡ puts (pieces (on_its_strip plan pen known closed line place)) buf.old at }
{
    let there = arrive(pen, place, place);
    let a = put_way_past(plan, pen, place, place, known, buf, at);
    let b = put_known(there, known, line, place, buf, a);
    let c = put_sign(closed, line, there.edge, place, buf, b);
    put_extra(plan, line, there.edge, buf, c)
}

// What is known once an open group has closed.
fn known_then(ride: Ride) -> Known
    ensures { result ≡ (end ride).ride.known }
{
    let ended = ride::end(ride);
    let after = ended.ride;
    after.known
}

// Lines in order, where this group closed, in this state.
pub fn put_lines(
    plan: Plan,
    pen: Pen,
    ride: Ride,
    closed: Group,
    lines: Lines,
    buf: &mut [u8],
    at: usize,
) -> usize
    ensures { came result buf.new ≡ puts (pieces (draw_lines plan pen ride.known (end ride).ride.known closed (says_lines lines) ride.odometer)) buf.old at }
{
    let known = ride.known;
    match lines {
        Lines::None => at,
        Lines::One(a) => {
            let place = place_of(a, ride.odometer);
            put_line(plan, pen, known, closed, a, place, buf, at)
        }
        Lines::Two(a, b) => {
            let place = place_of(a, ride.odometer);
            let next = put_line(plan, pen, known, closed, a, place, buf, at);
            let there = after_line(pen, a, ride.odometer);
            let then = known_then(ride);
            let behind = place_of(b, ride.odometer);
            put_line(plan, there, then, closed, b, behind, buf, next)
        }
    }
}

// The pen after them.
pub fn after_lines(pen: Pen, lines: Lines, odometer: u32) -> Pen
    ensures { result ≡ after_lines pen (says_lines lines) odometer }
{
    match lines {
        Lines::None => pen,
        Lines::One(a) => after_line(pen, a, odometer),
        Lines::Two(a, b) => after_line(after_line(pen, a, odometer), b, odometer),
    }
}
