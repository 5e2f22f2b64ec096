// The records of a trace: one by its index, and all of them in turn.
ghost use Rattle.std.specs.Prelude.{◌≡◌, ◌+◌, ◌≤◌, length, take, drop};
ghost use Rattle.ride.specs.State.{no_group};
ghost use Rattle.words.specs.Answer.{gives};
ghost use Rattle.settings.specs.Versions.{kept};
ghost use Rattle.settings.specs.Store.{judged};
ghost use Rattle.settings.specs.At.{held_at, gap_at};
ghost use Rattle.ride.specs.At.{odometer_at, treat_at};
ghost use Rattle.ride.specs.Over.{ride_over, records};
ghost use Rattle.ride.specs.Says.{says_reply, says_treated, says_way, says_ran};

use crate::anew::ride_anew;
use crate::holding::held_at;
use crate::joining::no_group;
use crate::records::high_first;
use crate::stepping::treat;
use crate::{Lines, Ran, Ride, TraceRefused, Wrong};
use group::Group;
use settings::{Held, Store, allowed};

// What treating the record at an index replies: that the gap is refused (19), that the trace has no
// such record, or what it gives.
// Stays as it is: `Result<Option<Result<Lines, Wrong>>, GapRefused>` is no plainer.
#[derive(Clone, Copy)]
pub enum Reply {
    Gap,
    NoRecord,
    Record(Result<Lines, Wrong>),
}

// What treating the record at an index answers: the state after it, the group that closed (none:
// one with count 0), and the reply.
#[derive(Clone, Copy)]
pub struct Treated {
    pub ride: Ride,
    pub closed: Group,
    pub reply: Reply,
}

// The eight bytes of a trace from this one on.
fn eight(trace: &[u8], at: usize) -> [u8; 8]
    requires { at + 8 ≤ length trace.now }
    ensures { result ≡ take 8 (drop at trace.now) }
{
    [
        trace[at],
        trace[at + 1],
        trace[at + 2],
        trace[at + 3],
        trace[at + 4],
        trace[at + 5],
        trace[at + 6],
        trace[at + 7],
    ]
}

// The odometer of the record at an index of the trace, as its four bytes say; 0 where there is no
// such record.
pub fn odometer_at(trace: &[u8], i: usize) -> u32
    ensures { result ≡ odometer_at trace.now i }
{
    if trace.len() / 8 <= i {
        return 0;
    }
    let at = i * 8;
    high_first(trace[at], trace[at + 1], trace[at + 2], trace[at + 3])
}

// No record is treated.
fn untreated(ride: Ride, reply: Reply) -> Treated
    ensures { says_treated result ≡ record { reply = says_reply reply; closed = no_group; ride = ride } }
{
    let none = no_group();
    Treated {
        ride,
        closed: none,
        reply,
    }
}

// The record at an index of the trace, the first at 0: 19 for the gap, then that there is no such
// record; else steps 1 to 4, as `step` has them.
pub fn treat_at(ride: Ride, gap: u32, trace: &[u8], i: usize) -> Treated
    ensures { says_treated result ≡ treat_at ride gap trace.now i }
{
    if !allowed(gap) {
        return untreated(ride, Reply::Gap);
    }
    if i >= trace.len() / 8 {
        return untreated(ride, Reply::NoRecord);
    }
    let treating = treat(ride, gap, eight(trace, i * 8));
    let after = treating.ride;
    let closed = treating.closed;
    let given = treating.given;
    Treated {
        ride: ride_anew(after),
        closed,
        reply: Reply::Record(given),
    }
}

// What a run answers.
pub fn went(ride: Ride, way: Result<(), TraceRefused>) -> Ran
    ensures { says_ran result ≡ record { answer = says_way way; ride = ride } }
{
    Ran { ride, way }
}

// The state after all records of the trace, each treated with the gap in force at its own odometer;
// what is held at first is what is in force at place 0.
pub fn over(ride: Ride, store: Store, first: Held, trace: &[u8]) -> Ride
    requires { (judged store ≡ gives kept) × (first ≡ held_at store 0) }
    ensures { result ≡ (ride_over (gap_at store) ride 1 (records trace.now)).ride }
{
    let count = trace.len() / 8;
    let mut now = ride;
    let mut held = first;
    for i in 0..count {
        held = held_at(store, held, trace, i);
        let treated = treat_at(now, held.gap, trace, i);
        now = treated.ride;
    }
    now
}
