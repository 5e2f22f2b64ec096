// The state of a ride, and what a line shows, written field by field. A copy of the whole would
// carry the bytes between its fields too, from record to record.
ghost use Rattle.std.specs.Prelude.{◌≡◌};

use crate::{Known, Linking, Ride, Seen};
use group::Group;

// A group.
fn group_anew(group: Group) -> Group
    ensures { result ≡ group }
{
    let kept = group.kept;
    Group {
        kept,
        count: group.count,
        last: group.last,
    }
}

// Linking.
fn linking_anew(linking: Linking) -> Linking
    ensures { result ≡ linking }
{
    match linking {
        Linking::Unset => Linking::Unset,
        Linking::Set { distance, from } => Linking::Set { distance, from },
    }
}

// An accepted group as a line shows it.
pub fn seen_anew(seen: Seen) -> Seen
    ensures { result ≡ seen }
{
    let direction = seen.direction;
    let kind = seen.kind;
    let mark = seen.mark;
    let number = seen.number;
    Seen {
        place: seen.place,
        direction,
        kind,
        mark,
        number,
    }
}

// What is known.
fn known_anew(known: Known) -> Known
    ensures { result ≡ known }
{
    let linking = known.linking;
    let main = known.main;
    let target = known.target;
    let number = known.number;
    Known {
        linking: linking_anew(linking),
        main,
        target,
        number,
    }
}

// A ride.
pub fn ride_anew(ride: Ride) -> Ride
    ensures { result ≡ ride }
{
    let group = ride.group;
    let known = ride.known;
    Ride {
        odometer: ride.odometer,
        group: group_anew(group),
        known: known_anew(known),
    }
}
