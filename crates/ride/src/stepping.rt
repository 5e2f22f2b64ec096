// The steps of a record.
ghost use Rattle.std.specs.Prelude.{◌≡◌, not, ◌&&◌, [], ◌∷◌, ◌++◌, ◌≤◌, length};
ghost use Rattle.ride.specs.declared.Line.{Line};
ghost use Rattle.ride.specs.Joining.{is_behind};
ghost use Rattle.ride.specs.Step.{close_behind, is_missed, unlinked, go_on, treat};
ghost use Rattle.ride.specs.Says.{says_lines, says_treating, says_closed};

use crate::closing::{Closed, close, judge, leave};
use crate::joining::{exceeds, is_open, take_up};
use crate::marks::{is_overdue, missed_place};
use crate::records::check_record;
use crate::treating::{Treating, nothing_closed};
use crate::{Known, Line, Lines, Linking, Passed, Ride};
use group::Group;

// Whether the group is left behind: it is open, and the odometer exceeds its last balise by more
// than the gap.
fn is_behind(ride: Ride, gap: u32, odometer: u32) -> bool
    ensures { result ≡ is_behind gap odometer ride.group }
{
    let group = ride.group;
    let last = group.last;
    is_open(group) & exceeds(odometer, last, gap)
}

// Step 2: a group that is left behind closes.
fn close_behind(ride: Ride, gap: u32, odometer: u32) -> Closed
    ensures { says_closed result ≡ close_behind gap odometer ride.group ride.known }
{
    let group = ride.group;
    let known = ride.known;
    if is_behind(ride, gap, odometer) {
        return close(group, judge(group, known));
    }
    leave(group, known)
}

// Whether the expected signal is missed: no group is open, and it is overdue.
fn is_missed(odometer: u32, group: Group, known: Known) -> bool
    ensures { result ≡ is_missed odometer group known }
{
    let linking = known.linking;
    !is_open(group) & is_overdue(linking, odometer)
}

// What is known once linking has ended.
fn unlinked(known: Known) -> Known
    ensures { result ≡ unlinked known }
{
    let main = known.main;
    let target = known.target;
    let number = known.number;
    Known {
        linking: Linking::Unset,
        main,
        target,
        number,
    }
}

// The lines, and after them that a signal was missed at this place.
fn and_missed(lines: Lines, place: u64) -> Lines
    requires { length (says_lines lines) ≤ 1 }
    ensures { says_lines result ≡ says_lines lines ++ (Line.Missed place ∷ []) }
{
    match lines {
        Lines::None => Lines::One(Line::Missed(place)),
        Lines::One(first) => Lines::Two(first, Line::Missed(place)),
        Lines::Two(first, second) => Lines::Two(first, second),
    }
}

// Steps 2 to 4, each in its turn.
fn all_steps(ride: Ride, gap: u32, odometer: u32, passed: Passed) -> Treating
    ensures { says_treating result ≡ go_on ride gap (record { odometer = odometer; passed = passed }) }
{
    let two = close_behind(ride, gap, odometer);
    let lines = two.lines;
    let closed = two.closed;
    let left = two.group;
    let known = two.known;
    let group = take_up(left, odometer, passed);
    if is_missed(odometer, left, known) {
        let linking = known.linking;
        let after = unlinked(known);
        return Treating {
            ride: Ride {
                odometer,
                group,
                known: after,
            },
            closed,
            given: Ok(and_missed(lines, missed_place(linking))),
        };
    }
    Treating {
        ride: Ride {
            odometer,
            group,
            known,
        },
        closed,
        given: Ok(lines),
    }
}

// Whether steps 2 and 3 do nothing: an open group is not left behind; where none is open, no signal
// is overdue.
fn is_quiet(ride: Ride, gap: u32, odometer: u32) -> bool
    ensures { result ≡ (not (is_behind gap odometer ride.group) && not (is_missed odometer ride.group ride.known)) }
{
    let group = ride.group;
    if is_open(group) {
        return !is_behind(ride, gap, odometer);
    }
    let known = ride.known;
    let linking = known.linking;
    !is_overdue(linking, odometer)
}

// Steps 2 to 4 for an accepted record. Most are quiet: then the state is spared the way through
// steps 2 and 3.
fn go_on(ride: Ride, gap: u32, odometer: u32, passed: Passed) -> Treating
    ensures { says_treating result ≡ go_on ride gap (record { odometer = odometer; passed = passed }) }
{
    let left = ride.group;
    let known = ride.known;
    if is_quiet(ride, gap, odometer) {
        let group = take_up(left, odometer, passed);
        let after = Ride {
            odometer,
            group,
            known,
        };
        return nothing_closed(after, Ok(Lines::None));
    }
    all_steps(ride, gap, odometer, passed)
}

// Steps 1 to 4: the record is refused, or goes on.
pub fn treat(ride: Ride, gap: u32, bytes: [u8; 8]) -> Treating
    ensures { says_treating result ≡ treat ride gap bytes }
{
    match check_record(ride, bytes) {
        Ok(checked) => go_on(ride, gap, checked.odometer, checked.passed),
        Err(wrong) => nothing_closed(ride, Err(wrong)),
    }
}
