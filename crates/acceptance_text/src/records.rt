// The records of a block, one after the other.
ghost use Rattle.std.specs.Prelude.{◌≡◌};
ghost use Rattle.words.specs.Answer.{gives};
ghost use Rattle.settings.specs.Versions.{kept};
ghost use Rattle.settings.specs.Store.{judged};
ghost use Rattle.settings.specs.At.{held_at, gap_at};
ghost use Rattle.ride.specs.Over.{records};
ghost use Rattle.acceptance_text.specs.Accept.{accept_taken};
ghost use Rattle.acceptance_text.specs.Says.{says_advanced};

use crate::taking::{is_quiet, take_given};
use crate::{Advanced, Going};
use ride::Reply;
use ride_text::Took;
use settings::{Held, Store};

// The records in turn, up to the last, while there is room for the lines of one more. What is held
// at first is what is in force at place 0. The run is touched only by a record that gives a line or
// is refused.
pub fn over(from: Going, store: Store, first: Held, trace: &[u8], out: &mut [u8]) -> Advanced
    requires { (judged store ≡ gives kept) × (first ≡ held_at store 0) }
    ensures { says_advanced result out.new ≡ accept_taken (gap_at store) from (records trace.now) out.old }
{
    let count = trace.len() / 8;
    let mut now = from.ride;
    let mut run = from.run;
    let mut troubles = from.troubles;
    let mut held = first;
    let mut i: usize = 0;
    let mut at: usize = 0;
    // Stays as it is: a for is no plainer, since the index at the end is the count that is answered.
    while (i < count) & (out.len() - at >= 128) {
        held = ride::held_at(store, held, trace, i);
        let treated = ride::treat_at(now, held.gap, trace, i);
        let reply = treated.reply;
        let Reply::Record(given) = reply else {
            break;
        };
        if !is_quiet(given) {
            let took = take_given(run, troubles, given, out, at);
            run = took.run;
            troubles = took.troubles;
            at = took.next;
        }
        now = treated.ride;
        i += 1;
    }
    Advanced {
        going: Going {
            ride: now,
            run,
            troubles,
        },
        progress: Ok(Took {
            records: i,
            bytes: at,
        }),
    }
}
