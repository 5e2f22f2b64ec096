// From strip to strip.
ghost use Rattle.std.specs.Prelude.{◌≡◌, ◌-◌, ◌/◌, ◌<◌};
ghost use Rattle.text.specs.Put.{came};
ghost use Rattle.ride_drawing.specs.declared.Pen.{Pen};
ghost use Rattle.text.specs.Pieces.{puts};
ghost use Rattle.ride_drawing.specs.Strip.{figure, figures, heading, between};
ghost use Rattle.ride_drawing.specs.Way.{leaving, way};

use crate::Pen;
use crate::places::is_further;
use crate::spans::put_span;
use ride::Known;
use text::{put, put_number};

// The figure at a tick.
fn put_figure(km: u64, i: u64, buf: &mut [u8], at: usize) -> usize
    requires { (km < 18446744073709551615) × (i < 11) }
    ensures { came result buf.new ≡ puts (figure km i) buf.old at }
{
    let a = put_number(b"<text x='", 100 + 100 * i, buf, at);
    let b = put_number(b"' y='232'>", km + i / 10, buf, a);
    let c = put_number(b".", i % 10, buf, b);
    put(b"</text>", buf, c)
}

// The figures at all ticks.
fn put_figures(km: u64, buf: &mut [u8], at: usize) -> usize
    requires { km < 18446744073709551615 }
    ensures { came result buf.new ≡ puts (figures km 0 11) buf.old at }
{
    let mut next = at;
    for i in 0..11u64 {
        next = put_figure(km, i, buf, next);
    }
    next
}

// The head of the strip of a kilometre.
fn put_heading(km: u64, buf: &mut [u8], at: usize) -> usize
    requires { km < 18446744073709551615 }
    ensures { came result buf.new ≡ puts (heading km) buf.old at }
{
    let a = put_number(b"<h2>km ", km, buf, at);
    let b = put(
        b"</h2>\n<div class='s'><svg viewBox='-12 0 1170 236'><use href='#g'/>",
        buf,
        a,
    );
    let c = put_figures(km, buf, b);
    put(b"\n", buf, c)
}

// Between two strips.
fn put_between(n: u64, buf: &mut [u8], at: usize) -> usize
    ensures { came result buf.new ≡ puts (between n) buf.old at }
{
    if n <= 1 {
        return at;
    }
    let a = put_number(b"<p>", n - 1, buf, at);
    put(b" km without records</p>\n", buf, a)
}

// What stands before the next strip.
fn put_leaving(pen: Pen, place: u64, until: u64, known: Known, buf: &mut [u8], at: usize) -> usize
    ensures { came result buf.new ≡ puts (leaving pen place until known) buf.old at }
{
    if !pen.is_open {
        return put(b"</p>\n", buf, at);
    }
    let a = put_span(pen.edge, pen.from, until, known, buf, at);
    let b = put(b"</svg></div>\n", buf, a);
    put_between(kilometres(pen.edge, place), buf, b)
}

// How many kilometres a place lies after an edge, by their strips.
fn kilometres(edge: u64, place: u64) -> u64
    ensures { result ≡ place / 10000 - edge / 10000 }
{
    if edge / 10000 <= place / 10000 {
        place / 10000 - edge / 10000
    } else {
        0
    }
}

// The way of the pen to a place.
pub fn put_way(pen: Pen, place: u64, until: u64, known: Known, buf: &mut [u8], at: usize) -> usize
    ensures { came result buf.new ≡ puts (way pen place until known) buf.old at }
{
    if !is_further(pen, place) {
        return at;
    }
    let a = put_leaving(pen, place, until, known, buf, at);
    put_heading(place / 10000, buf, a)
}
