// The sign of a line.
ghost use Rattle.std.specs.Prelude.{◌≡◌, ◌-◌};
ghost use Rattle.text.specs.Put.{put, came};
ghost use Rattle.ride.specs.declared.Line.{Line};
ghost use Rattle.text.specs.Pieces.{puts};
ghost use Rattle.ride_drawing.specs.Sign.{mark_shape, kind_shape, seen_shape, shape, title, beside, number_beside, place_beside, label, sign};

use crate::places::on_strip;
use crate::spans::put_metres;
use group::{Group, Number};
use group_rows::{Direction, Kind};
use ride::{Line, Mark};
use ride_text::REASONS;
use text::{put, put_number};

// The shape of a signal, by its mark.
fn mark_shape(mark: Mark) -> u64
    ensures { result ≡ mark_shape mark }
{
    match mark {
        Mark::Unmarked => 1,
        Mark::First => 2,
        Mark::Early => 3,
        Mark::Good => 4,
        Mark::Late => 5,
    }
}

// The shape of a kind.
fn kind_shape(kind: Kind, mark: Mark) -> u64
    ensures { result ≡ kind_shape kind mark }
{
    match kind {
        Kind::Signal => mark_shape(mark),
        Kind::Warning => 6,
        Kind::Annulled => 7,
        Kind::Line => 8,
        Kind::Route => 9,
    }
}

// The shape of a group.
fn seen_shape(direction: Direction, kind: Kind, mark: Mark) -> u64
    ensures { result ≡ seen_shape direction (kind_shape kind mark) }
{
    match direction {
        Direction::Present => kind_shape(kind, mark),
        Direction::Opposite => kind_shape(kind, mark) + 10,
    }
}

// The shape of a line's sign.
fn shape(line: Line) -> u64
    ensures { result ≡ shape line }
{
    match line {
        Line::Group(seen) => {
            let direction = seen.direction;
            let kind = seen.kind;
            let mark = seen.mark;
            seen_shape(direction, kind, mark)
        }
        Line::Fault(_, _) => 20,
        Line::Missed(_) => 21,
        Line::Record(_, _) => 22,
        Line::Trace(_) => 23,
    }
}

// A length without the newline.
pub fn without_newline(n: usize) -> usize
    ensures { result ≡ n - 1 }
{
    if n > 0 { n - 1 } else { 0 }
}

// The line as `explain` writes it, without its newline.
fn put_title(closed: Group, line: Line, buf: &mut [u8], at: usize) -> usize
    ensures { came result buf.new ≡ put (title closed line) buf.old at }
{
    let mut space = [0u8; 160];
    let n = ride_text::put_styled(REASONS, closed, line, &mut space, 0);
    let m = without_newline(n);
    put(&space[..m], buf, at)
}

// How far down a number stands beside its sign.
fn beside(direction: Direction) -> u64
    ensures { result ≡ beside direction }
{
    match direction {
        Direction::Present => 146,
        Direction::Opposite => 198,
    }
}

// A signal's number.
fn put_beside(direction: Direction, number: Number, x: u64, buf: &mut [u8], at: usize) -> usize
    ensures { came result buf.new ≡ puts (number_beside direction number x) buf.old at }
{
    match number {
        Number::None => at,
        Number::Figure(m) => {
            let a = put_metres(b"<text dx='12' x='", x, buf, at);
            let b = put_number(b"' y='", beside(direction), buf, a);
            let c = put_number(b"'>", m as u64, buf, b);
            put(b"</text>", buf, c)
        }
    }
}

// The place of a fault that began further back than the margin.
fn put_place(edge: u64, place: u64, buf: &mut [u8], at: usize) -> usize
    ensures { came result buf.new ≡ puts (place_beside edge place) buf.old at }
{
    if place >= edge {
        return at;
    }
    if edge - place <= 1000 {
        return at;
    }
    put_number(b" at ", place, buf, at)
}

// What stands beside the sign of a fault.
fn put_fault(place: u64, n: u8, edge: u64, x: u64, buf: &mut [u8], at: usize) -> usize
    ensures { came result buf.new ≡ puts (label (Line.Fault place n) edge x) buf.old at }
{
    let a = put_metres(b"<text class='x' dx='9' x='", x, buf, at);
    let b = put_number(b"' y='", 146 - x / 40 % 3 * 14, buf, a);
    let c = put_number(b"'>", n as u64, buf, b);
    let d = put_place(edge, place, buf, c);
    put(b"</text>", buf, d)
}

// What stands beside the sign of a line.
fn put_label(line: Line, edge: u64, x: u64, buf: &mut [u8], at: usize) -> usize
    ensures { came result buf.new ≡ puts (label line edge x) buf.old at }
{
    match line {
        Line::Group(seen) => {
            let direction = seen.direction;
            let number = seen.number;
            put_beside(direction, number, x, buf, at)
        }
        Line::Fault(place, n) => put_fault(place, n, edge, x, buf, at),
        Line::Missed(_) => at,
        Line::Record(_, _) => at,
        Line::Trace(_) => at,
    }
}

// The sign of a line whose place is this one.
pub fn put_sign(
    closed: Group,
    line: Line,
    edge: u64,
    place: u64,
    buf: &mut [u8],
    at: usize,
) -> usize
    ensures { came result buf.new ≡ puts (sign closed line edge place) buf.old at }
{
    let x = on_strip(edge, place);
    let a = put(b"<g><title>", buf, at);
    let b = put_title(closed, line, buf, a);
    let c = put_number(b"</title><use href='#s", shape(line), buf, b);
    let d = put_metres(b"' x='", x, buf, c);
    let e = put(b"'/>", buf, d);
    let f = put_label(line, edge, x, buf, e);
    put(b"</g>\n", buf, f)
}
