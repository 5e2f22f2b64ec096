// Many records forward or back at once. The last states are a local while it goes, so that no
// record costs a copy of them all.
ghost use Rattle.std.specs.Prelude.{◌≡◌, eqb, leb, ltb};
ghost use Rattle.words.specs.Answer.{gives, refuses, pick};
ghost use Rattle.settings.specs.Versions.{kept};
ghost use Rattle.settings.specs.Store.{judged};
ghost use Rattle.settings.specs.At.{held_at};
ghost use Rattle.settings.specs.Says.{says_bad};
ghost use Rattle.viewer.specs.Going.{all, refused, forwards, backs};
ghost use Rattle.viewer.specs.Says.{says_ending, says_moved};

use crate::moving::one_more;
use crate::{Moved, NoStep, Standing};
use settings::{Bad, Held};

// Why going forward ended with so many times left: at the end, if any.
fn ended(left: usize) -> Result<(), NoStep>
    ensures { says_ending result ≡ pick (eqb left 0) all (refused 23) }
{
    if left == 0 {
        return Ok(());
    }
    Err(NoStep::AtEnd)
}

// Forward so many times, or to the end. What is held at first is what is in force at place 0.
fn over(trace: &[u8], from: Standing, first: Held, times: usize) -> Moved
    requires { (judged from.settings ≡ gives kept) × (first ≡ held_at from.settings 0) }
    ensures { says_moved result ≡ forwards times trace.now from }
{
    let store = from.settings;
    let steps = times.min((trace.len() / 8).saturating_sub(from.number));
    let mut held = first;
    let mut kept = from.kept;
    let mut now = from.ride;
    let mut last = from.last;
    for made in 0..steps {
        let number = from.number + made;
        held = ride::held_at(store, held, trace, number);
        let treated = ride::treat_at(now, held.gap, trace, number);
        let at = number % 256;
        last[at] = now;
        kept = one_more(kept);
        now = treated.ride;
    }
    let stand = Standing {
        number: from.number + steps,
        kept,
        ride: now,
        last,
        settings: store,
    };
    Moved {
        stand,
        steps,
        ending: ended(times - steps),
    }
}

// Why no step is made with settings that are refused: at the end, or for them.
fn refusal(number: usize, count: usize, bad: Bad) -> Result<(), NoStep>
    ensures { says_ending result ≡ pick (ltb number count) (refused (says_bad bad)) (refused 23) }
{
    if number < count {
        return Err(NoStep::Settings(bad));
    }
    Err(NoStep::AtEnd)
}

// `forward_at` so many times, or until the next one is refused: where the viewer then stands, how
// many steps were made, and why no further one.
pub fn forwards_at(trace: &[u8], stand: Standing, times: usize) -> Moved
    ensures { says_moved result ≡ forwards times trace.now stand }
{
    if times == 0 {
        return Moved {
            stand,
            steps: 0,
            ending: Ok(()),
        };
    }
    let store = stand.settings;
    let asked = settings::at(store, 0);
    match asked {
        Err(bad) => Moved {
            stand,
            steps: 0,
            ending: refusal(stand.number, trace.len() / 8, bad),
        },
        Ok(first) => over(trace, stand, first, times),
    }
}

// Why going back so many times ends, with so many states kept.
fn kept_for(times: usize, kept: usize) -> Result<(), NoStep>
    ensures { says_ending result ≡ pick (leb times kept) all (refused 22) }
{
    if times <= kept {
        return Ok(());
    }
    Err(NoStep::NothingKept)
}

// `back_at` so many times, or until the next one is refused: where the viewer then stands, how many
// steps were made, and why no further one.
pub fn backs_at(stand: Standing, times: usize) -> Moved
    ensures { says_moved result ≡ backs times stand }
{
    let ending = kept_for(times, stand.kept);
    let far = times.min(stand.kept);
    if far == 0 {
        return Moved {
            stand,
            steps: 0,
            ending,
        };
    }
    let number = stand.number.saturating_sub(far);
    let last = stand.last;
    let settings = stand.settings;
    let at = number % 256;
    let ride = last[at];
    Moved {
        stand: Standing {
            number,
            kept: stand.kept - far,
            ride,
            last,
            settings,
        },
        steps: far,
        ending,
    }
}
