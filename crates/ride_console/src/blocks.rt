// The records of the cards, block by block: in through `list`, out to standard output.
ghost use Rattle.std.specs.Prelude.{◌≤◌};

use crate::saying::{say_failed, write};
use console::System;
use ride::Ride;
use ride_text::{PLAIN, REASONS};
use settings::Store;

// How many bytes of a lent block are used at once: 8,192 records of 128 bytes of lines fill the
// room for lines, 3,276 of 320.
pub fn size(reasons: bool, lent: usize) -> usize
    ensures { result ≤ lent }
{
    if reasons {
        if 26208 < lent {
            return 26208;
        }
        return lent;
    }
    if 65536 < lent {
        return 65536;
    }
    lent
}

// Where the ride stands: the state, and the next record's number.
#[derive(Clone, Copy)]
pub struct Listing {
    ride: Ride,
    number: u64,
}

// Lists the records and writes their lines, and goes on to where the ride stands then; whether that
// succeeded. Where out has room for the lines of them all, one call of `list` takes them all.
fn write_records(
    rt: &impl System,
    program: &[u8],
    reasons: bool,
    store: Store,
    stand: &mut Listing,
    records: &[u8],
    out: &mut [u8],
) -> bool {
    let ride = stand.ride;
    let listed = ride_text::list(reasons, ride, store, stand.number, records, out);
    let done = listed.done;
    let after = listed.ride;
    let number = listed.number;
    let Ok(took) = done else {
        return false;
    };
    *stand = Listing {
        ride: after,
        number,
    };
    let is_written = write(rt, program, reasons, out, took.bytes);
    is_written & (took.records == records.len() / 8)
}

// Writes the line of a group that the end of the ride closes.
fn write_end(rt: &impl System, program: &[u8], reasons: bool, ride: Ride) {
    let mut out = [0u8; 320];
    let n = ride_text::put_end(reasons, ride, &mut out, 0);
    write(rt, program, reasons, &out, n);
}

// The lines of all records of the cards from this argument on, whose lengths were kept, as one ride
// under the settings, and of its end; or what failed. How lines are written stands in each closure
// as a constant: looked up through one, it would keep the reasons in a program that gives none.
pub fn over(
    rt: &impl System,
    program: &[u8],
    reasons: bool,
    store: Store,
    first: usize,
    lengths: &[u64],
    block: &mut [u8],
    out: &mut [u8],
) {
    let ride = ride::fresh();
    let mut stand = Listing { ride, number: 1 };
    let went = if reasons {
        console::over_cards(rt, first, lengths, block, |records| {
            write_records(rt, program, REASONS, store, &mut stand, records, out)
        })
    } else {
        console::over_cards(rt, first, lengths, block, |records| {
            write_records(rt, program, PLAIN, store, &mut stand, records, out)
        })
    };
    match went {
        Ok(true) => {
            let last = stand.ride;
            write_end(rt, program, reasons, last);
        }
        Ok(false) => {}
        Err(failed) => say_failed(rt, program, reasons, failed),
    }
}
