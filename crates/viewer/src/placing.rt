// The record at or past a place. One that every ride refuses, since it is malformed or its odometer
// is too high, is none.
ghost use Rattle.std.specs.Prelude.{◌≡◌, ◌/◌, ◌<◌, length, drop};
ghost use Rattle.ride.specs.At.{record_at};
ghost use Rattle.ride.specs.Over.{records};
ghost use Rattle.ride.specs.Says.{says_checked};
ghost use Rattle.viewer.specs.Going.{reaches, is_at, times_to};

use ride::{Checked, Wrong};

// The eight bytes of the record at an index.
fn eight(trace: &[u8], i: usize) -> [u8; 8]
    requires { i < length trace.now / 8 }
    ensures { result ≡ record_at trace.now i }
{
    let at = i * 8;
    [
        trace[at],
        trace[at + 1],
        trace[at + 2],
        trace[at + 3],
        trace[at + 4],
        trace[at + 5],
        trace[at + 6],
        trace[at + 7],
    ]
}

// Whether a record that was checked is accepted, at or past the place.
fn reaches(checked: Result<Checked, Wrong>, place: u64) -> bool
    ensures { result ≡ reaches place (says_checked checked) }
{
    match checked {
        Ok(accepted) => accepted.odometer as u64 >= place,
        Err(_) => false,
    }
}

// Whether a fresh ride accepts the record at an index, at or past the place.
fn is_at(trace: &[u8], i: usize, place: u64) -> bool
    requires { i < length trace.now / 8 }
    ensures { result ≡ is_at place (record_at trace.now i) }
{
    let fresh = ride::fresh();
    let bytes = eight(trace, i);
    let checked = ride::check_record(fresh, bytes);
    reaches(checked, place)
}

// How many forwards lead to just before the first record at or past the place that a fresh ride
// accepts, with so many records before the viewer; where there is none, one more than are left.
pub fn times_to(trace: &[u8], number: usize, place: u64) -> usize
    ensures { result ≡ times_to place (drop number (records trace.now)) }
{
    let count = trace.len() / 8;
    for i in number..count {
        if is_at(trace, i, place) {
            return i - number;
        }
    }
    count.saturating_sub(number) + 1
}
