// A ride as strips of a page, one for each kilometre: what each record adds to them, and the end of
// the ride; over the strips the entries of a plan, where one is given.
// Promises: every line of the ride that has a place has one sign, at its place or at the strip's
// edge; its title is the line as `explain` writes it; every entry of the plan has one sign, at its
// place; any blocks give the whole; no record adds more than the room that is kept for it; the
// bytes around a text stay.
// Specification: specs/Element.antt (what a page is made of), Metres.antt (lengths), Says.antt
// (what answers say), Strip.antt (the strips), Span.antt (speeds, and where a signal is due),
// Sign.antt (the signs), Row.antt (a plan's entries), Ticks.antt (refused records), Way.antt (from
// strip to strip), Drawing.antt (a record and the end), Draw.antt (a block of records); the
// promises: Laws.antt, Places.antt (of places), Titles.antt (of titles).
#![tactic(auto)]

ghost use Rattle.std.specs.Prelude.{◌≡◌};
ghost use Rattle.text.specs.Put.{came};
ghost use Rattle.text.specs.Pieces.{puts};
ghost use Rattle.ride_drawing.specs.Element.{pieces};
ghost use Rattle.ride_drawing.specs.Drawing.{draw_end};
ghost use Rattle.ride_drawing.specs.Draw.{draw};
ghost use Rattle.ride_drawing.specs.Says.{fresh_pen, says_drawn};

mod lines;
mod places;
mod records;
mod rows;
mod signs;
mod spans;
mod steps;
mod strips;
mod ticks;
mod ways;

use acceptance::Acceptance;
use ride::{Ride, TraceRefused};
use ride_text::Took;
use settings::Store;

// Where the pen stands: the left edge of its strip in dm, the place up to which what is known has
// been drawn, whether a strip is open, and how many ticks lie under the next one.
#[derive(Clone, Copy)]
pub struct Pen {
    pub edge: u64,
    pub from: u64,
    pub is_open: bool,
    pub ticks: u8,
}

// A plan of the test track, to be drawn as a row over the strips: the run over it once the whole
// ride was taken; or that none is given.
#[derive(Clone, Copy)]
pub struct Plan {
    pub run: Acceptance,
    pub asked: bool,
}

// Where a drawing stands: the ride, the next record's number, and the pen.
#[derive(Clone, Copy)]
pub struct Drawing {
    pub ride: Ride,
    pub number: u64,
    pub pen: Pen,
}

// What drawing a block answers: where the drawing stands then, and how it went: so many records
// taken and bytes written, or refused as a listing is.
#[derive(Clone, Copy)]
pub struct Drawn {
    pub drawing: Drawing,
    pub done: Result<Took, TraceRefused>,
}

// A pen before the first strip.
pub fn fresh_pen() -> Pen
    ensures { result ≡ fresh_pen }
{
    Pen {
        edge: 0,
        from: 0,
        is_open: false,
        ticks: 0,
    }
}

// What the trace's records add to the strips, as text at the start of out, of as many records as
// surely have room, each treated with the gap in force at its own odometer; where the drawing
// stands then, how many records and bytes; or the settings' own refusal, then 16, with nothing
// taken.
pub fn draw(plan: Plan, drawing: Drawing, store: Store, trace: &[u8], out: &mut [u8]) -> Drawn
    ensures { says_drawn result out.new ≡ draw plan drawing store trace.now out.old }
{
    let asked = settings::at(store, 0);
    match asked {
        Err(bad) => Drawn {
            drawing,
            done: Err(TraceRefused::Settings(bad)),
        },
        Ok(held) => {
            if trace.len() % 8 != 0 {
                return Drawn {
                    drawing,
                    done: Err(TraceRefused::Length),
                };
            }
            records::over(plan, drawing, store, held, trace, out)
        }
    }
}

// What the end of the ride adds to the strips, likewise; the place after it.
pub fn draw_end(plan: Plan, pen: Pen, ride: Ride, buf: &mut [u8], at: usize) -> usize
    ensures { came result buf.new ≡ puts (pieces (draw_end plan pen ride)) buf.old at }
{
    let ended = ride::end(ride);
    let lines = ended.lines;
    let closed = ended.closed;
    let after = ended.ride;
    let next = lines::put_lines(plan, pen, ride, closed, lines, buf, at);
    let last = lines::after_lines(pen, lines, ride.odometer);
    steps::put_rest(plan, last, after, buf, next)
}
