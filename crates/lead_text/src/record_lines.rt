// The lines of one record.
ghost use Rattle.std.specs.Prelude.{◌≡◌, ◌≤◌, length};
ghost use Rattle.words.specs.Answer.{gives};
ghost use Rattle.settings.specs.Versions.{kept};
ghost use Rattle.settings.specs.Store.{judged};
ghost use Rattle.settings.specs.At.{gap_at};
ghost use Rattle.lead_text.specs.Inside.{says_one, list_one};

use ride::Ride;
use ride_text::REASONS;
use settings::Store;

// What listing a record answers: whether it was taken; the ride, the next record's number and the
// next place then.
#[derive(Clone, Copy)]
pub struct One {
    pub taken: bool,
    pub ride: Ride,
    pub number: u64,
    pub at: usize,
}

// The lines of the record with this number in out from `at` on, if it is taken.
pub fn list_one(
    ride: Ride,
    store: Store,
    number: u64,
    bytes: [u8; 8],
    out: &mut [u8],
    at: usize,
) -> One
    requires store_value { judged store ≡ gives kept }
    requires at_in_bounds { at ≤ length out.old }
    ensures { says_one result out.new ≡ list_one (gap_at store) ride number bytes out.old at }
{
    let listed = ride_text::list(REASONS, ride, store, number, &bytes, &mut out[at..]);
    let done = listed.done;
    let then = listed.ride;
    match done {
        Ok(took) => One {
            taken: took.records > 0,
            ride: then,
            number: listed.number,
            at: at + took.bytes,
        },
        Err(_) => One {
            taken: false,
            ride,
            number,
            at,
        },
    }
}
