// Balises that belong together: when a group is left behind, and how a balise joins one.
ghost use Rattle.std.specs.Prelude.{◌≡◌, ◌+◌, ltb, set};
ghost use Rattle.words.specs.Answer.{pick};
ghost use Rattle.ride.specs.State.{no_group, is_open_meant};
ghost use Rattle.ride.specs.Joining.{counted, join, take_up};

use crate::Passed;
use group::{Balise, Group, Heard};

// A place of a group that no balise has taken.
const NO_BALISE: Balise = Balise {
    place: 0,
    heard: Heard::Unreadable,
};

// No group. A constant is copied whole, where a literal is written field by field in every step.
const NO_GROUP: Group = Group {
    kept: [NO_BALISE; 5],
    count: 0,
    last: 0,
};

// No group.
pub fn no_group() -> Group
    ensures { result ≡ no_group }
{
    NO_GROUP
}

// Whether the group is open.
pub fn is_open(group: Group) -> bool
    ensures { result ≡ is_open_meant group }
{
    group.count > 0
}

// Whether the odometer exceeds a balise's place by more than the gap.
pub fn exceeds(odometer: u32, last: u32, gap: u32) -> bool
    ensures { result ≡ ltb (last + gap) odometer }
{
    odometer as u64 > last as u64 + gap as u64
}

// One balise more; 255 stands for 255 or more.
fn counted(count: u8) -> u8
    ensures { result ≡ counted count }
{
    if count < 255 {
        return count + 1;
    }
    255
}

// The new balise if so, or else the old one.
fn either(so: bool, new: Balise, old: Balise) -> Balise
    ensures { result ≡ pick so new old }
{
    if so { new } else { old }
}

// The five with a balise more, where so many were counted before it. Each of them is asked for: at
// an index that changes, all five would be written to memory and read back for each balise.
fn with_one(old: [Balise; 5], count: u8, balise: Balise) -> [Balise; 5]
    ensures { result ≡ pick (ltb count 5) (set old count balise) old }
{
    [
        either(count == 0, balise, old[0]),
        either(count == 1, balise, old[1]),
        either(count == 2, balise, old[2]),
        either(count == 3, balise, old[3]),
        either(count == 4, balise, old[4]),
    ]
}

// The group with one balise more.
fn join(group: Group, balise: Balise) -> Group
    ensures { result ≡ join group balise }
{
    let count = group.count;
    let old = group.kept;
    Group {
        kept: with_one(old, count, balise),
        count: counted(count),
        last: balise.place,
    }
}

// The group after a record: a balise joins the open group or opens one.
pub fn take_up(group: Group, odometer: u32, passed: Passed) -> Group
    ensures { result ≡ take_up group odometer passed }
{
    match passed {
        Passed::Position => group,
        Passed::Balise(heard) => {
            let balise = Balise {
                place: odometer,
                heard,
            };
            if is_open(group) {
                join(group, balise)
            } else {
                join(no_group(), balise)
            }
        }
    }
}
