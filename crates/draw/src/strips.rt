// The strips of a ride, block by block.
ghost use Rattle.std.specs.Prelude.{◌≤◌};

use console::System;
use ride::TraceRefused;
use ride_drawing::{Drawing, Plan};
use ride_text::Took;
use settings::Store;

// How many of so many records were drawn, once they are written: none where that fails.
fn written(rt: &impl System, done: Result<Took, TraceRefused>, most: usize, out: &[u8]) -> usize
    ensures { result ≤ most }
{
    let Ok(took) = done else {
        return 0;
    };
    if took.records > most {
        return 0;
    }
    if console::put(rt, b"draw", out, took.bytes) {
        return took.records;
    }
    0
}

// The records of a block: as many at once as have room; where the drawing stands then, if they could
// be written.
fn draw_records(
    rt: &impl System,
    plan: Plan,
    from: Drawing,
    store: Store,
    records: &[u8],
    out: &mut [u8],
) -> Option<Drawing> {
    let mut drawing = from;
    let mut i: usize = 0;
    // Stays as it is: the new form is no plainer, a turn goes on by as many records as it took.
    while i < records.len() / 8 {
        let drawn = ride_drawing::draw(plan, drawing, store, &records[i * 8..], out);
        let done = drawn.done;
        drawing = drawn.drawing;
        let took = written(rt, done, records.len() / 8 - i, out);
        if took == 0 {
            return None;
        }
        i += took;
    }
    Some(drawing)
}

// The end of the ride.
fn draw_end(rt: &impl System, plan: Plan, drawing: Drawing, out: &mut [u8]) -> bool {
    let pen = drawing.pen;
    let ride = drawing.ride;
    let n = ride_drawing::draw_end(plan, pen, ride, out, 0);
    console::put(rt, b"draw", out, n)
}

// All records of the cards, whose lengths were kept, as one ride, and its end; or what failed.
fn draw_blocks(
    rt: &impl System,
    plan: Plan,
    begun: Drawing,
    store: Store,
    first: usize,
    lengths: &[u64],
    block: &mut [u8],
    out: &mut [u8],
) -> bool {
    let mut drawing = begun;
    let went = console::over_cards(rt, first, lengths, block, |records| {
        let Some(then) = draw_records(rt, plan, drawing, store, records, out) else {
            return false;
        };
        drawing = then;
        true
    });
    match went {
        Ok(true) => draw_end(rt, plan, drawing, out),
        Ok(false) => false,
        Err(failed) => {
            console::say_goes(rt, b"draw", Err(failed));
            false
        }
    }
}

// The strips of the cards' ride, from a fresh one.
pub fn draw_cards(
    rt: &impl System,
    plan: Plan,
    store: Store,
    first: usize,
    lengths: &[u64],
    block: &mut [u8],
) -> bool {
    let ride = ride::fresh();
    let pen = ride_drawing::fresh_pen();
    let drawing = Drawing {
        ride,
        number: 1,
        pen,
    };
    let mut out = console::room();
    draw_blocks(rt, plan, drawing, store, first, lengths, block, &mut out)
}
