// One record forward and back, over a lent trace.
ghost use Rattle.std.specs.Prelude.{◌≡◌, ◌<◌, ◌/◌, [], true, length};
ghost use Rattle.settings.specs.Versions.{allowed};
ghost use Rattle.ride.specs.Step.{treat};
ghost use Rattle.ride.specs.At.{record_at};
ghost use Rattle.ride.specs.Over.{lines_for};
ghost use Rattle.ride.specs.Says.{says_wrong, says_lines, says_given};
ghost use Rattle.ride.specs.State.{no_group};
ghost use Rattle.viewer.specs.Stand.{one_more, passed};
ghost use Rattle.viewer.specs.Viewing.{by_step, forward, back};
ghost use Rattle.viewer.specs.Says.{says_call_went, says_went, says_came};

use crate::going::backs_at;
use crate::{Came, NoStep, Standing, Went};
use ride::{Line, Lines, Reply, Ride, Wrong};
use settings::Held;

// One more state kept, up to 256.
pub fn one_more(kept: usize) -> usize
    ensures { result ≡ one_more kept }
{
    if kept < 256 {
        return kept + 1;
    }
    kept
}

// One record passed, which leaves this state.
fn pass(stand: Standing, next: Ride) -> Standing
    requires { stand.number < 18446744073709551615 }
    ensures { result ≡ passed stand next }
{
    let number = stand.number;
    let before = stand.ride;
    let settings = stand.settings;
    let mut last = stand.last;
    let at = number % 256;
    last[at] = before;
    Standing {
        number: number + 1,
        kept: one_more(stand.kept),
        ride: next,
        last,
        settings,
    }
}

// The number of a refusal.
fn refusal(wrong: Wrong) -> u8
    ensures { result ≡ says_wrong wrong }
{
    match wrong {
        Wrong::Malformed => 16,
        Wrong::TooHigh => 18,
        Wrong::TooLow => 17,
    }
}

// The lines of the record with this number: those that it gives, or that it was refused.
fn lines_of(number: u64, given: Result<Lines, Wrong>) -> Lines
    ensures { says_lines result ≡ lines_for number (says_given given) }
{
    match given {
        Err(wrong) => Lines::One(Line::Record(number, refusal(wrong))),
        Ok(lines) => lines,
    }
}

// A refused forward.
fn unmoved(stand: Standing, how: Result<(), NoStep>) -> Went
    ensures { says_went result ≡ record { answer = says_call_went how; lines = []; closed = no_group; stand = stand } }
{
    let fresh = ride::fresh();
    let closed = fresh.group;
    Went {
        stand,
        lines: Lines::None,
        closed,
        how,
    }
}

// The record that comes next, with the settings held for it.
fn step_at(trace: &[u8], stand: Standing, held: Held) -> Went
    requires { (stand.number < length trace.now / 8) × (allowed held.gap ≡ true) }
    ensures { says_went result ≡ by_step stand (treat stand.ride held.gap (record_at trace.now stand.number)) }
{
    let number = stand.number;
    let ride = stand.ride;
    let treated = ride::treat_at(ride, held.gap, trace, number);
    let reply = treated.reply;
    let Reply::Record(given) = reply else {
        return unmoved(stand, Err(NoStep::AtEnd));
    };
    let next = treated.ride;
    let closed = treated.closed;
    let lines = lines_of(number as u64 + 1, given);
    let after = pass(stand, next);
    Went {
        stand: after,
        lines,
        closed,
        how: Ok(()),
    }
}

// As `forward`, for a stand over the lent trace: one record forward, or 23 at the end.
pub fn forward_at(trace: &[u8], stand: Standing) -> Went
    ensures { says_went result ≡ forward trace.now stand }
{
    let number = stand.number;
    if number >= trace.len() / 8 {
        return unmoved(stand, Err(NoStep::AtEnd));
    }
    let store = stand.settings;
    let asked = settings::at(store, 0);
    match asked {
        Err(bad) => unmoved(stand, Err(NoStep::Settings(bad))),
        Ok(first) => {
            let held = ride::held_at(store, first, trace, number);
            step_at(trace, stand, held)
        }
    }
}

// As `back`, for a stand: one record back, or 22 where no state is kept.
pub fn back_at(stand: Standing) -> Came
    ensures { says_came result ≡ back stand }
{
    let moved = backs_at(stand, 1);
    let ending = moved.ending;
    let here = moved.stand;
    Came {
        stand: here,
        how: ending,
    }
}
