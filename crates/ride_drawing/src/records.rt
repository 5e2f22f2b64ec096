// The records of a block, one after the other.
ghost use Rattle.std.specs.Prelude.{◌≡◌, Ok};
ghost use Rattle.words.specs.Answer.{gives};
ghost use Rattle.settings.specs.Versions.{kept};
ghost use Rattle.settings.specs.Store.{judged};
ghost use Rattle.settings.specs.At.{held_at, gap_at};
ghost use Rattle.ride.specs.Over.{records};
ghost use Rattle.ride_drawing.specs.Draw.{draw_taken};
ghost use Rattle.ride_drawing.specs.Says.{says_drawn};

use crate::steps::{pen_after, put_step};
use crate::{Drawing, Drawn, Pen, Plan};
use ride::{Reply, Ride};
use ride_text::Took;
use settings::{Held, Store};

// So many records taken and bytes written, and where the drawing stands then.
fn took(ride: Ride, number: u64, pen: Pen, records: usize, bytes: usize) -> Drawn
    ensures { result ≡ record { drawing = record { ride = ride; number = number; pen = pen }; done = Ok (record { records = records; bytes = bytes }) } }
{
    Drawn {
        drawing: Drawing { ride, number, pen },
        done: Ok(Took { records, bytes }),
    }
}

// The records in turn, up to the last, while there is room for what one more may add and the next
// number fits.
pub fn over(
    plan: Plan,
    drawing: Drawing,
    store: Store,
    first: Held,
    trace: &[u8],
    out: &mut [u8],
) -> Drawn
    requires { (judged store ≡ gives kept) × (first ≡ held_at store 0) }
    ensures { says_drawn result out.new ≡ draw_taken plan (gap_at store) drawing (records trace.now) out.old }
{
    let count = trace.len() / 8;
    let mut now = drawing.ride;
    let mut pen = drawing.pen;
    let mut next = drawing.number;
    let mut held = first;
    let mut i: usize = 0;
    let mut at: usize = 0;
    // Stays as it is: a for is no plainer, since the index at the end is the count that is answered.
    while (i < count) & ((out.len() - at >= 524288) & (next < u64::MAX)) {
        held = ride::held_at(store, held, trace, i);
        let treated = ride::treat_at(now, held.gap, trace, i);
        let reply = treated.reply;
        let Reply::Record(given) = reply else {
            break;
        };
        let closed = treated.closed;
        let after = treated.ride;
        at = put_step(plan, pen, now, next, given, closed, after, out, at);
        pen = pen_after(pen, now.odometer, given, after);
        now = after;
        next += 1;
        i += 1;
    }
    took(now, next, pen, i, at)
}
