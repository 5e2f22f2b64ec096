// The text of each line.
ghost use Rattle.std.specs.Prelude.{◌≡◌, ◌+◌, ◌≤◌, ◌++◌, length};
ghost use Rattle.text.specs.Text.{codes, decimal};
ghost use Rattle.text.specs.Put.{put, came};
ghost use Rattle.ride.specs.declared.Line.{Line};
ghost use Rattle.ride_text.specs.Text.{direction_word, mark, number, seen, text, behind, line_text};

use crate::put_kind;
use group::{Group, Number};
use group_rows::Direction;
use ride::{Line, Mark, Seen};
use text::{put, put_number};

// The word for a direction, after its space.
fn put_direction(way: Direction, buf: &mut [u8], at: usize) -> usize
    ensures { came result buf.new ≡ put (direction_word way) buf.old at }
{
    match way {
        Direction::Present => put(b" present", buf, at),
        Direction::Opposite => put(b" opposite", buf, at),
    }
}

// A mark after its space, if there is one.
fn put_mark(of: Mark, buf: &mut [u8], at: usize) -> usize
    ensures { came result buf.new ≡ put (mark of) buf.old at }
{
    match of {
        Mark::Unmarked => put(b"", buf, at),
        Mark::First => put(b" first", buf, at),
        Mark::Early => put(b" early", buf, at),
        Mark::Good => put(b" good", buf, at),
        Mark::Late => put(b" late", buf, at),
    }
}

// A number after its space and its `n`, if there is one.
fn put_figure(of: Number, buf: &mut [u8], at: usize) -> usize
    ensures { came result buf.new ≡ put (number of) buf.old at }
{
    match of {
        Number::None => put(b"", buf, at),
        Number::Figure(m) => put_number(b" n", m as u64, buf, at),
    }
}

// An accepted group.
fn put_seen(of: Seen, buf: &mut [u8], at: usize) -> usize
    requires { at + length (seen of) ≤ length buf.old }
    ensures { came result buf.new ≡ put (seen of) buf.old at }
{
    let way = of.direction;
    let which = of.kind;
    let marked = of.mark;
    let numbered = of.number;
    let a = put_number(b"", of.place, buf, at);
    let b = put_direction(way, buf, a);
    let c = put_kind(which, buf, b);
    let d = put_mark(marked, buf, c);
    let e = put_figure(numbered, buf, d);
    put(b"\n", buf, e)
}

// Words, a number and a newline.
fn put_numbered(words: &[u8], n: u64, buf: &mut [u8], at: usize) -> usize
    requires { at + length (words.now ++ decimal n ++ codes "\n") ≤ length buf.old }
    ensures { came result buf.new ≡ put (words.now ++ decimal n ++ codes "\n") buf.old at }
{
    let a = put_number(words, n, buf, at);
    put(b"\n", buf, a)
}

// What stands behind the number of a fault: nothing, or after a colon why the group that closed was
// refused.
fn put_why(reasons: bool, closed: Group, buf: &mut [u8], at: usize) -> usize
    requires { at + length (behind reasons closed) ≤ length buf.old }
    ensures { came result buf.new ≡ put (behind reasons closed) buf.old at }
{
    if !reasons {
        return put(b"", buf, at);
    }
    let a = put(b": ", buf, at);
    group_reason::put_reason(group_reason::explain(closed), buf, a)
}

// A refused group: its place, its number and why.
fn put_fault(reasons: bool, closed: Group, place: u64, n: u8, buf: &mut [u8], at: usize) -> usize
    requires { at + length (line_text reasons closed (Line.Fault place n)) ≤ length buf.old }
    ensures { came result buf.new ≡ put (line_text reasons closed (Line.Fault place n)) buf.old at }
{
    let a = put_number(b"", place, buf, at);
    let b = put_number(b" fault ", n as u64, buf, a);
    let c = put_why(reasons, closed, buf, b);
    put(b"\n", buf, c)
}

// A missed signal: its place.
fn put_missed(place: u64, buf: &mut [u8], at: usize) -> usize
    requires { at + length (text (Line.Missed place)) ≤ length buf.old }
    ensures { came result buf.new ≡ put (text (Line.Missed place)) buf.old at }
{
    let a = put_number(b"", place, buf, at);
    put(b" missed\n", buf, a)
}

// A refused record: its number in the trace and its refusal.
fn put_record(number: u64, n: u8, buf: &mut [u8], at: usize) -> usize
    requires { at + length (text (Line.Record number n)) ≤ length buf.old }
    ensures { came result buf.new ≡ put (text (Line.Record number n)) buf.old at }
{
    let a = put_number(b"record ", number, buf, at);
    put_numbered(b" refused ", n as u64, buf, a)
}

// The text of a line in a style, where this group closed.
pub fn put_text(reasons: bool, closed: Group, line: Line, buf: &mut [u8], at: usize) -> usize
    requires { at + length (line_text reasons closed line) ≤ length buf.old }
    ensures { came result buf.new ≡ put (line_text reasons closed line) buf.old at }
{
    match line {
        Line::Group(of) => put_seen(of, buf, at),
        Line::Fault(place, n) => put_fault(reasons, closed, place, n, buf, at),
        Line::Missed(place) => put_missed(place, buf, at),
        Line::Record(number, n) => put_record(number, n, buf, at),
        Line::Trace(n) => put_numbered(b"trace refused ", n as u64, buf, at),
    }
}
