// The records that come of a piece of the lead, or at its end, one after the other.
ghost use Rattle.std.specs.Prelude.{◌≡◌};
ghost use Rattle.words.specs.Answer.{gives};
ghost use Rattle.settings.specs.Versions.{kept};
ghost use Rattle.settings.specs.Store.{judged};
ghost use Rattle.lead_text.specs.List.{standing};
ghost use Rattle.lead_text.specs.Says.{says_written};
ghost use Rattle.lead_text.specs.Inside.{taken_to, of_either};

use crate::coming::next_record;
use crate::record_lines::list_one;
use crate::{HowFar, Underway, Written};
use recording::Taken;
use ride::Ride;
use settings::Store;

// A ride that stands where the next record was asked for.
fn standing(taken: Taken, ride: Ride, number: u64) -> Underway
    ensures { result ≡ standing (taken_to taken) ride number }
{
    let tape = taken.tape;
    Underway {
        tape,
        ride,
        number,
        frame: taken.frame,
        bit: taken.bit,
    }
}

// From record to record, while each is taken.
pub fn over(ends: bool, underway: Underway, store: Store, frames: &[u8], out: &mut [u8]) -> Written
    requires { judged store ≡ gives kept }
    ensures { says_written result out.new ≡ of_either ends store underway frames.now out.old }
{
    let mut here = underway;
    let mut at: usize = 0;
    loop {
        let ride = here.ride;
        let taken = next_record(ends, here, store, frames);
        let Some(bytes) = taken.came else {
            return Written {
                underway: standing(taken, ride, here.number),
                how: Ok(HowFar::Over(at)),
            };
        };
        let one = list_one(ride, store, here.number, bytes, out, at);
        if !one.taken {
            return Written {
                underway: here,
                how: Ok(HowFar::Full(at)),
            };
        }
        let then = one.ride;
        here = standing(taken, then, one.number);
        at = one.at;
    }
}
