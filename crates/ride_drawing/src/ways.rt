// The way of the pen past the entries of a plan.
ghost use Rattle.std.specs.Prelude.{◌≡◌};
ghost use Rattle.text.specs.Put.{came};
ghost use Rattle.ride_drawing.specs.declared.Pen.{Pen};
ghost use Rattle.text.specs.Pieces.{puts};
ghost use Rattle.ride_drawing.specs.Row.{row, is_on_the_way};
ghost use Rattle.ride_drawing.specs.Element.{pieces};
ghost use Rattle.ride_drawing.specs.Way.{come_by, past, way_past};

use crate::places::{arrive, is_further};
use crate::rows::put_entry;
use crate::strips::put_way;
use crate::{Pen, Plan};
use acceptance::Entry;
use ride::Known;

// Where the pen stands after the entries that it came by, and the place after what was put.
#[derive(Clone, Copy)]
pub struct Went {
    pub pen: Pen,
    pub next: usize,
}

// Whether the pen comes by an entry on its way to a place.
fn is_on_the_way(pen: Pen, place: u64, entry: Entry) -> bool
    ensures { result ≡ is_on_the_way pen place entry }
{
    let own = entry.place as u64;
    is_further(pen, own) & (own / 10000 <= place / 10000)
}

// An entry on the pen's way to a place, or not.
fn come_by(
    began: Pen,
    i: usize,
    entry: Entry,
    place: u64,
    until: u64,
    known: Known,
    pen: Pen,
    buf: &mut [u8],
    at: usize,
) -> Went
    ensures buf_after { came result.next buf.new ≡ puts (pieces (come_by began i entry place until known pen).elements) buf.old at }
    ensures pen_value { result.pen ≡ (come_by began i entry place until known pen).pen }
{
    if !is_on_the_way(began, place, entry) {
        return Went { pen, next: at };
    }
    let own = entry.place as u64;
    let there = arrive(pen, own, until);
    let a = put_way(pen, own, until, known, buf, at);
    let next = put_entry(i, entry, there.edge, buf, a);
    Went { pen: there, next }
}

// The entries that the pen comes by on its way to a place.
pub fn pass(
    plan: Plan,
    pen: Pen,
    place: u64,
    until: u64,
    known: Known,
    buf: &mut [u8],
    at: usize,
) -> Went
    ensures buf_after { came result.next buf.new ≡ puts (pieces (past pen pen 0 (row plan) place until known).elements) buf.old at }
    ensures pen_value { result.pen ≡ (past pen pen 0 (row plan) place until known).pen }
{
    let run = plan.run;
    let mut now = pen;
    let mut next = at;
    for i in 0..64usize {
        let Some(entry) = acceptance::report(run, i) else {
            break;
        };
        let went = come_by(pen, i, entry, place, until, known, now, buf, next);
        now = went.pen;
        next = went.next;
    }
    Went { pen: now, next }
}

// The way to a place past the entries of a plan.
pub fn put_way_past(
    plan: Plan,
    pen: Pen,
    place: u64,
    until: u64,
    known: Known,
    buf: &mut [u8],
    at: usize,
) -> usize
    ensures { came result buf.new ≡ puts (pieces (way_past plan pen place until known)) buf.old at }
{
    if !is_further(pen, place) {
        return at;
    }
    let went = pass(plan, pen, place, until, known, buf, at);
    let there = went.pen;
    put_way(there, place, until, known, buf, went.next)
}
