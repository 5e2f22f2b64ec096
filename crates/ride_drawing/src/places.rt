// Places on strips, and where the pen goes.
ghost use Rattle.std.specs.Prelude.{◌≡◌};
ghost use Rattle.ride.specs.declared.Line.{Line};
ghost use Rattle.ride_drawing.specs.declared.Pen.{Pen};
ghost use Rattle.ride_drawing.specs.Strip.{lesser, greater, on_strip, is_further, arrive};
ghost use Rattle.ride_drawing.specs.Drawing.{place_of, seen_turns, turns, reached, after_line, certain};

use crate::Pen;
use group_rows::{Direction, Kind};
use ride::{Line, Ride};

// The lesser of two places.
pub fn lesser(a: u64, b: u64) -> u64
    ensures { result ≡ lesser a b }
{
    if a <= b { a } else { b }
}

// The greater of two places.
pub fn greater(a: u64, b: u64) -> u64
    ensures { result ≡ greater a b }
{
    if a <= b { b } else { a }
}

// Where a place lies on the strip with this edge.
pub fn on_strip(edge: u64, place: u64) -> u64
    ensures { result ≡ on_strip edge place }
{
    if edge <= place {
        return 1000 + lesser(place - edge, 10000);
    }
    let back = edge - place;
    if back <= 1000 { 1000 - back } else { 0 }
}

// Whether a place lies in a later strip than the pen's, or no strip is open yet.
pub fn is_further(pen: Pen, place: u64) -> bool
    ensures { result ≡ is_further pen place }
{
    !pen.is_open | (pen.edge / 10000 < place / 10000)
}

// The pen on the strip of a place.
pub fn arrive(pen: Pen, place: u64, until: u64) -> Pen
    ensures { result ≡ arrive pen place until }
{
    if !is_further(pen, place) {
        return pen;
    }
    let edge = place / 10000 * 10000;
    Pen {
        edge,
        from: lesser(until, edge),
        is_open: true,
        ticks: pen.ticks,
    }
}

// The place of a line's sign.
pub fn place_of(line: Line, odometer: u32) -> u64
    ensures { result ≡ place_of line odometer }
{
    match line {
        Line::Group(seen) => seen.place,
        Line::Fault(place, _) => place,
        Line::Missed(place) => place,
        Line::Record(_, _) => odometer as u64,
        Line::Trace(_) => odometer as u64,
    }
}

// Whether a group turns what is known.
fn seen_turns(direction: Direction, kind: Kind) -> bool
    ensures { result ≡ seen_turns direction kind }
{
    match direction {
        Direction::Opposite => false,
        Direction::Present => match kind {
            Kind::Signal => true,
            Kind::Warning => false,
            Kind::Annulled => false,
            Kind::Line => false,
            Kind::Route => false,
        },
    }
}

// Whether a line turns the speeds.
fn turns(line: Line) -> bool
    ensures { result ≡ turns line }
{
    match line {
        Line::Group(seen) => {
            let direction = seen.direction;
            let kind = seen.kind;
            seen_turns(direction, kind)
        }
        Line::Fault(_, _) => true,
        Line::Missed(_) => false,
        Line::Record(_, _) => false,
        Line::Trace(_) => false,
    }
}

// Up to where what was known before a line is drawn at its sign.
pub fn reached(pen: Pen, line: Line, place: u64) -> u64
    ensures { result ≡ reached pen line place }
{
    if turns(line) {
        return greater(pen.from, place);
    }
    pen.from
}

// The pen after the sign of a line.
pub fn after_line(pen: Pen, line: Line, odometer: u32) -> Pen
    ensures { result ≡ after_line pen line odometer }
{
    let place = place_of(line, odometer);
    let there = arrive(pen, place, place);
    Pen {
        edge: there.edge,
        from: reached(there, line, place),
        is_open: there.is_open,
        ticks: there.ticks,
    }
}

// Up to where what is known is certain.
pub fn certain(ride: Ride) -> u64
    ensures { result ≡ certain ride }
{
    let group = ride.group;
    if group.count > 0 {
        let kept = group.kept;
        let first = kept[0];
        return first.place as u64;
    }
    ride.odometer as u64
}
