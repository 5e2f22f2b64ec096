// Closing and judging a group: what is known then, and its line.
ghost use Rattle.std.specs.Prelude.{◌≡◌, [], ◌∷◌, ◌<◌};
ghost use Rattle.words.specs.Answer.{gives, refuses};
ghost use Rattle.group.specs.Judge.{judge};
ghost use Rattle.ride.specs.State.{no_group};
ghost use Rattle.ride.specs.Closing.{known_after, line_of, leave};
ghost use Rattle.ride.specs.Step.{ended};
ghost use Rattle.ride.specs.Says.{says_closed, says_ended};
ghost use Rattle.ride.specs.Inside.{says_group_verdict};

use crate::anew::seen_anew;
use crate::joining::no_group;
use crate::knowing::{known_from, nothing_known};
use crate::shown::seen_from;
use crate::{Ended, Known, Line, Lines, Mark, Ride, Seen};
use group::{Group, Message, Number};
use group_rows::{Direction, Kind};

// What closing leaves: its lines, the group that closed, the group that is there then, and what is
// known then.
#[derive(Clone, Copy)]
pub struct Closed {
    pub lines: Lines,
    pub closed: Group,
    pub group: Group,
    pub known: Known,
}

// What judging a group says: the number of its refusal, or 0; what its line shows (of a refused
// group its first place, and nothing else); and what is known then. Its line is made of it where it
// is written, field by field.
#[derive(Clone, Copy)]
pub struct GroupVerdict {
    pub fault: u8,
    pub seen: Seen,
    pub known: Known,
}

// The verdict on an accepted group.
fn accepted(group: Group, known: Known, message: Message) -> GroupVerdict
    ensures { says_group_verdict result ≡ record { line = line_of group known.linking (gives message); known = known_after (gives message) known } }
{
    let content = message.content;
    let number = message.number;
    let linking = known.linking;
    let seen = seen_from(message, linking);
    let after = known_from(content, message.place, number, known);
    GroupVerdict {
        fault: 0,
        seen,
        known: after,
    }
}

// The verdict on a group that is refused with this number.
fn faulty(group: Group, known: Known, number: u8) -> GroupVerdict
    requires { 0 < number }
    ensures { says_group_verdict result ≡ record { line = line_of group known.linking (refuses number); known = known_after (refuses number) known } }
{
    let first = group.kept[0];
    let nothing = nothing_known();
    GroupVerdict {
        fault: number,
        seen: Seen {
            place: first.place as u64,
            direction: Direction::Present,
            kind: Kind::Signal,
            mark: Mark::Unmarked,
            number: Number::None,
        },
        known: nothing,
    }
}

// The verdict on a group.
pub fn judge(group: Group, known: Known) -> GroupVerdict
    ensures { says_group_verdict result ≡ record { line = line_of group known.linking (judge group); known = known_after (judge group) known } }
{
    match group::judge(group) {
        Ok(message) => accepted(group, known, message),
        Err(refused) => faulty(group, known, u8::from(refused)),
    }
}

// The line of a verdict.
fn line_from(verdict: GroupVerdict) -> Line
    ensures { result ≡ (says_group_verdict verdict).line }
{
    let seen = verdict.seen;
    if verdict.fault == 0 {
        return Line::Group(seen_anew(seen));
    }
    Line::Fault(seen.place, verdict.fault)
}

// The group closes with this verdict.
pub fn close(group: Group, verdict: GroupVerdict) -> Closed
    ensures { says_closed result ≡ record { lines = (says_group_verdict verdict).line ∷ []; closed = group; group = no_group; known = verdict.known } }
{
    let line = line_from(verdict);
    let known = verdict.known;
    let none = no_group();
    Closed {
        lines: Lines::One(line),
        closed: group,
        group: none,
        known,
    }
}

// No group closes.
pub fn leave(group: Group, known: Known) -> Closed
    ensures { says_closed result ≡ leave group known }
{
    let none = no_group();
    Closed {
        lines: Lines::None,
        closed: none,
        group,
        known,
    }
}

// What the end leaves after its closing.
pub fn at_end(odometer: u32, last: Closed) -> Ended
    ensures { says_ended result ≡ ended odometer (says_closed last) }
{
    let lines = last.lines;
    let closed = last.closed;
    let group = last.group;
    let known = last.known;
    Ended {
        ride: Ride {
            odometer,
            group,
            known,
        },
        closed,
        lines,
    }
}
