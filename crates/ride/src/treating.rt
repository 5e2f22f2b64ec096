// What treating a record leaves, and how a step reports it.
ghost use Rattle.std.specs.Prelude.{◌≡◌};
ghost use Rattle.ride.specs.State.{no_group};
ghost use Rattle.ride.specs.Says.{says_given, says_treating, says_stepped};

use crate::joining::no_group;
use crate::{Lines, Ride, StepRefused, Stepped, Wrong};
use group::Group;

// What treating a record leaves: the state, the group that closed, and what the record gives.
#[derive(Clone, Copy)]
pub struct Treating {
    pub ride: Ride,
    pub closed: Group,
    pub given: Result<Lines, Wrong>,
}

// A record by which no group closes.
pub fn nothing_closed(ride: Ride, given: Result<Lines, Wrong>) -> Treating
    ensures { says_treating result ≡ record { lines = says_given given; closed = no_group; ride = ride } }
{
    let none = no_group();
    Treating {
        ride,
        closed: none,
        given,
    }
}

// What a step reports of a record under an allowed gap.
pub fn reported(treating: Treating) -> Stepped
    ensures { says_stepped result ≡ says_treating treating }
{
    let ride = treating.ride;
    let closed = treating.closed;
    let given = treating.given;
    match given {
        Err(wrong) => Stepped {
            ride,
            closed,
            report: Err(StepRefused::Record(wrong)),
        },
        Ok(lines) => Stepped {
            ride,
            closed,
            report: Ok(lines),
        },
    }
}
