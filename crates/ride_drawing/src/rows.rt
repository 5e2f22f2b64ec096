// The row over the strips: entries of a plan, and extra groups.
ghost use Rattle.std.specs.Prelude.{◌≡◌};
ghost use Rattle.text.specs.Put.{put, came};
ghost use Rattle.acceptance.specs.Taking.{is_present};
ghost use Rattle.ride.specs.declared.Line.{Line};
ghost use Rattle.text.specs.Pieces.{puts};
ghost use Rattle.ride_drawing.specs.Row.{row, entry_shape, entry_title, row_number, entry_sign, is_by, has_met, is_extra, extra_sign};
ghost use Rattle.ride_drawing.specs.Element.{pieces};
ghost use Rattle.ride_drawing.specs.Drawing.{extra_mark};

use crate::Plan;
use crate::places::on_strip;
use crate::signs::without_newline;
use crate::spans::put_metres;
use acceptance::Entry;
use group_rows::Direction;
use ride::{Line, Seen};
use ride_text::put_kind;
use text::{put, put_number};

// The shape of an entry's sign.
fn entry_shape(met: Option<u64>) -> u64
    ensures { result ≡ entry_shape met }
{
    match met {
        Some(_) => 30,
        None => 31,
    }
}

// The line of an entry, without its newline.
fn put_entry_title(i: usize, entry: Entry, buf: &mut [u8], at: usize) -> usize
    ensures { came result buf.new ≡ put (entry_title i entry) buf.old at }
{
    let mut space = [0u8; 128];
    let n = acceptance_text::put_entry(i, entry, &mut space, 0);
    let m = without_newline(n);
    put(&space[..m], buf, at)
}

// A number in the row.
fn put_row_number(x: u64, n: u64, buf: &mut [u8], at: usize) -> usize
    ensures { came result buf.new ≡ puts (row_number x n) buf.old at }
{
    let a = put_metres(b"'/><text dx='8' y='15' x='", x, buf, at);
    let b = put_number(b"'>", n, buf, a);
    put(b"</text></g>\n", buf, b)
}

// The sign of the entry with this index.
pub fn put_entry(i: usize, entry: Entry, edge: u64, buf: &mut [u8], at: usize) -> usize
    ensures { came result buf.new ≡ puts (entry_sign i entry edge) buf.old at }
{
    let x = on_strip(edge, entry.place as u64);
    let met = entry.met;
    let a = put(b"<g class='e'><title>", buf, at);
    let b = put_entry_title(i, entry, buf, a);
    let c = put_number(b"</title><use href='#s", entry_shape(met), buf, b);
    let d = put_metres(b"' x='", x, buf, c);
    put_row_number(x, acceptance::one_more(i as u64), buf, d)
}

// Whether what met an entry is the group at this place.
fn is_by(place: u64, met: Option<u64>) -> bool
    ensures { result ≡ is_by place met }
{
    match met {
        None => false,
        Some(p) => p == place,
    }
}

// Whether the group at this place met an entry.
fn has_met(plan: Plan, place: u64) -> bool
    ensures { result ≡ has_met place (row plan) }
{
    let run = plan.run;
    let mut found = false;
    for i in 0..64usize {
        let Some(entry) = acceptance::report(run, i) else {
            break;
        };
        let met = entry.met;
        found = found | is_by(place, met);
    }
    found
}

// Whether a group is one of the present direction.
fn is_present(way: Direction) -> bool
    ensures { result ≡ is_present way }
{
    match way {
        Direction::Present => true,
        Direction::Opposite => false,
    }
}

// Whether a group is extra.
fn is_extra(plan: Plan, seen: Seen) -> bool
    ensures { result ≡ is_extra plan seen }
{
    let way = seen.direction;
    if !plan.asked {
        return false;
    }
    if !is_present(way) {
        return false;
    }
    !has_met(plan, seen.place)
}

// The sign of an extra group.
fn put_extra_sign(seen: Seen, edge: u64, buf: &mut [u8], at: usize) -> usize
    ensures { came result buf.new ≡ puts (extra_sign seen edge) buf.old at }
{
    let kind = seen.kind;
    let a = put_number(b"<g class='e'><title>", seen.place, buf, at);
    let b = put_kind(kind, buf, a);
    let c = put(b" extra</title><use href='#s32", buf, b);
    let d = put_metres(b"' x='", on_strip(edge, seen.place), buf, c);
    put(b"'/></g>\n", buf, d)
}

// The mark of an extra group.
pub fn put_extra(plan: Plan, line: Line, edge: u64, buf: &mut [u8], at: usize) -> usize
    ensures { came result buf.new ≡ puts (pieces (extra_mark plan line edge)) buf.old at }
{
    match line {
        Line::Group(seen) => {
            if is_extra(plan, seen) {
                return put_extra_sign(seen, edge, buf, at);
            }
            at
        }
        Line::Fault(_, _) => at,
        Line::Missed(_) => at,
        Line::Record(_, _) => at,
        Line::Trace(_) => at,
    }
}
