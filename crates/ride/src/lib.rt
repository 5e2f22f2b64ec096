// A ride over a trace: the check of a record, what is known on the way, the lines that it gives.
// Promises: every record is treated by document 01's steps 1 to 4 in order, from whatever state is
// lent; a refused one changes nothing.
// Specification: specs/Record.antt, State.antt, Joining.antt, Linking.antt, Closing.antt,
// Step.antt, At.antt (one record of a trace), Over.antt (a whole trace), Says.antt (the answers),
// Inside.antt (an answer that no caller sees).
#![tactic(auto)]

ghost use Rattle.std.specs.Prelude.{◌≡◌};
ghost use Rattle.ride.specs.State.{fresh_ride};
ghost use Rattle.ride.specs.Step.{step, end};
ghost use Rattle.ride.specs.Over.{run};
ghost use Rattle.ride.specs.declared.TraceRefused.TheVariants.{Settings};
ghost use Rattle.ride.specs.Says.{says_stepped, says_ended, says_ran};

mod anew;
mod closing;
mod holding;
mod joining;
mod knowing;
mod marks;
mod records;
mod shown;
mod stepping;
mod trace;
mod treating;

use group::{Group, Heard, Number, Told};
use group_rows::{Direction, Kind};
pub use holding::held_at;
pub use records::check_record;
use settings::{Bad, Store, allowed};
pub use trace::{Reply, Treated, odometer_at, treat_at};

// Linking: not set, or set with a distance in dm from a place.
#[derive(Clone, Copy)]
pub enum Linking {
    Unset,
    Set { distance: u32, from: u32 },
}

// What is known on the way; number: the last present signal's, none after a refused group.
#[derive(Clone, Copy)]
pub struct Known {
    pub linking: Linking,
    pub main: Told,
    pub target: Told,
    pub number: Number,
}

// A ride's state: the last accepted odometer, the group (open above count 0), what is known.
#[derive(Clone, Copy)]
pub struct Ride {
    pub odometer: u32,
    pub group: Group,
    pub known: Known,
}

// What a record says beyond its odometer: a balise as heard, or a position only.
#[derive(Clone, Copy)]
pub enum Passed {
    Balise(Heard),
    Position,
}

// Why a record is refused: 16, 18 and 17 in this order.
#[derive(Clone, Copy, PartialEq, Eq)]
pub enum Wrong {
    Malformed,
    TooHigh,
    TooLow,
}

// What an accepted record says: its odometer, and what passed there.
#[derive(Clone, Copy)]
pub struct Checked {
    pub odometer: u32,
    pub passed: Passed,
}

// The mark of a present signal; other groups have none.
#[derive(Clone, Copy)]
pub enum Mark {
    Unmarked,
    First,
    Early,
    Good,
    Late,
}

// An accepted group as a line shows it; place is that of its A balise, number that of a signal.
#[derive(Clone, Copy)]
pub struct Seen {
    pub place: u64,
    pub direction: Direction,
    pub kind: Kind,
    pub mark: Mark,
    pub number: Number,
}

// A line: an accepted group; a refused group's first place and number; a missed signal's place; a
// refused record's number in the trace and its refusal; the refusal of a whole trace.
#[derive(Clone, Copy)]
pub enum Line {
    Group(Seen),
    Fault(u64, u8),
    Missed(u64),
    Record(u64, u8),
    Trace(u8),
}

// The lines of one record or of the end, in order: at most two.
#[derive(Clone, Copy)]
pub enum Lines {
    None,
    One(Line),
    Two(Line, Line),
}

// Why a step is refused: for the gap (19), or for the record.
#[derive(Clone, Copy, PartialEq, Eq)]
pub enum StepRefused {
    Gap,
    Record(Wrong),
}

// What a step answers: the state after it, the group that closed (count 0: none), and its lines, or
// why it is refused.
#[derive(Clone, Copy)]
pub struct Stepped {
    pub ride: Ride,
    pub closed: Group,
    pub report: Result<Lines, StepRefused>,
}

// What ending the ride answers: the state after it, the group that closed, and its line.
#[derive(Clone, Copy)]
pub struct Ended {
    pub ride: Ride,
    pub closed: Group,
    pub lines: Lines,
}

// Why nothing goes over a trace: for the settings (their number), or the trace's length (16).
#[derive(Clone, Copy, PartialEq, Eq)]
pub enum TraceRefused {
    Settings(Bad),
    Length,
}

impl From<Bad> for TraceRefused {
    ghost from_gives = { λ bad e. e ≡ Settings bad };

    fn from(bad: Bad) -> TraceRefused {
        TraceRefused::Settings(bad)
    }
}

// What a run over a trace answers: the state after it, and that it went through, or why not.
#[derive(Clone, Copy)]
pub struct Ran {
    pub ride: Ride,
    pub way: Result<(), TraceRefused>,
}

// A fresh ride: the odometer at 0, no open group and nothing known.
pub fn fresh() -> Ride
    ensures { result ≡ fresh_ride }
{
    Ride {
        odometer: 0,
        group: joining::no_group(),
        known: knowing::nothing_known(),
    }
}

// One record's step: 19 for the gap; else steps 1 to 4 of document 01, with the lines in order, the
// group that closed, and the state after. A refusal leaves the state.
pub fn step(ride: Ride, gap: u32, bytes: [u8; 8]) -> Stepped
    ensures { says_stepped result ≡ step ride gap bytes }
{
    if !allowed(gap) {
        let none = joining::no_group();
        return Stepped {
            ride,
            closed: none,
            report: Err(StepRefused::Gap),
        };
    }
    treating::reported(stepping::treat(ride, gap, bytes))
}

// The end of a ride: an open group closes and gives its line; no step 3, the odometer stays.
pub fn end(ride: Ride) -> Ended
    ensures { says_ended result ≡ end ride }
{
    let group = ride.group;
    let known = ride.known;
    if joining::is_open(group) {
        let verdict = closing::judge(group, known);
        return closing::at_end(ride.odometer, closing::close(group, verdict));
    }
    closing::at_end(ride.odometer, closing::leave(group, known))
}

// The ride over a whole trace: the settings' own refusal, then 16 for a length that is no multiple
// of 8; else the state after all records, each treated with the gap in force at its own odometer.
pub fn run(ride: Ride, store: Store, trace: &[u8]) -> Ran
    ensures { says_ran result ≡ run ride store trace.now }
{
    let asked = settings::at(store, 0);
    match asked {
        Err(bad) => trace::went(ride, Err(TraceRefused::Settings(bad))),
        Ok(held) => {
            if trace.len() % 8 != 0 {
                return trace::went(ride, Err(TraceRefused::Length));
            }
            trace::went(trace::over(ride, store, held, trace), Ok(()))
        }
    }
}
