// One record and the next: whether the first is dropped.
ghost use Rattle.std.specs.Prelude.{◌≡◌, true, ◌&&◌, eqb};
ghost use Rattle.settings.specs.At.{held_for};
ghost use Rattle.ride.specs.Joining.{allowed};
ghost use Rattle.ride.specs.Record.{odometer_of, kind_of, check_record};
ghost use Rattle.ride.specs.Step.{treat};
ghost use Rattle.ride.specs.At.{by_step};
ghost use Rattle.ride.specs.Says.{says_checked, says_lines, says_given, says_reply, says_treated};
ghost use Rattle.words.specs.Answer.{gives};
ghost use Rattle.compaction.specs.Dropped.{is_quiet, is_accepted};
ghost use Rattle.compaction.specs.Inside.{quiet_reply};

use ride::{Checked, Lines, Reply, Ride, Treated, Wrong};
use settings::{Held, Store};

// Whether there is no line.
fn is_none(lines: Lines) -> bool
    ensures { result ≡ is_quiet (gives (says_lines lines)) }
{
    match lines {
        Lines::None => true,
        Lines::One(_) => false,
        Lines::Two(_, _) => false,
    }
}

// Whether a record was accepted and gave no line,
fn is_given_none(given: Result<Lines, Wrong>) -> bool
    ensures { result ≡ is_quiet (says_given given) }
{
    match given {
        Ok(lines) => is_none(lines),
        Err(_) => false,
    }
}

// as its reply says.
fn is_quiet(reply: Reply) -> bool
    ensures { result ≡ quiet_reply (says_reply reply) }
{
    match reply {
        Reply::Record(given) => is_given_none(given),
        Reply::NoRecord => false,
        Reply::Gap => false,
    }
}

// Whether a record is accepted.
fn is_accepted(checked: Result<Checked, Wrong>) -> bool
    ensures { result ≡ is_accepted (says_checked checked) }
{
    checked.is_ok()
}

// The settings to hold for the record of these eight bytes.
pub fn held_for(store: Store, held: Held, bytes: [u8; 8]) -> Held
    ensures { result ≡ held_for store held (odometer_of bytes) }
{
    ride::held_at(store, held, &bytes, 0)
}

// The record of these eight bytes is treated. Its state comes back field by field, as from any
// record of a trace.
pub fn treat(ride: Ride, gap: u32, bytes: [u8; 8]) -> Treated
    requires { allowed gap ≡ true }
    ensures { says_treated result ≡ by_step (treat ride gap bytes) }
{
    ride::treat_at(ride, gap, &bytes, 0)
}

// Whether the record of these eight bytes, which was treated with this reply and left this state,
// is dropped before the next one.
pub fn is_dropped(after: Ride, bytes: [u8; 8], reply: Reply, next: [u8; 8]) -> bool
    ensures { result ≡ (eqb (kind_of bytes) 3 && (quiet_reply (says_reply reply) && is_accepted (check_record after.odometer next))) }
{
    (bytes[4] == 3) & (is_quiet(reply) & is_accepted(ride::check_record(after, next)))
}
