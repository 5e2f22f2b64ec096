// Linking: the mark of a present signal, and when an expected one is missed.
ghost use Rattle.std.specs.Prelude.{◌≡◌, ◌-◌, ◌<◌, ◌^◌};
ghost use Rattle.ride.specs.Linking.{mark_at, mark_of, is_overdue, missed_place};
ghost use Rattle.ride.specs.Closing.{mark_from};

use crate::{Linking, Mark};
use group::Content;

// How far a place lies beyond another; 0 for a place before it.
fn beyond(place: u32, from: u32) -> u64
    ensures { result ≡ place - from }
{
    if place < from {
        return 0;
    }
    (place - from) as u64
}

// The mark at travelled distance t, where D was announced.
fn mark_at(distance: u32, t: u64) -> Mark
    requires { t < 2 ^ 32 }
    ensures { result ≡ mark_at distance t }
{
    let d = distance as u64;
    if 5 * t < 4 * d {
        return Mark::Early;
    }
    if 5 * t <= 6 * d {
        return Mark::Good;
    }
    Mark::Late
}

// The mark of a present signal whose A balise lies at this place.
fn mark_of(linking: Linking, place: u32) -> Mark
    ensures { result ≡ mark_of linking place }
{
    match linking {
        Linking::Unset => Mark::First,
        Linking::Set { distance, from } => mark_at(distance, beyond(place, from)),
    }
}

// The mark of an accepted group: present signals alone have one.
pub fn mark_from(content: Content, place: u32, linking: Linking) -> Mark
    ensures { result ≡ mark_from content place linking }
{
    match content {
        Content::Signal {
            distance: _,
            preset: _,
            main: _,
            target: _,
        } => mark_of(linking, place),
        Content::Warning { distance: _ } => Mark::Unmarked,
        Content::Route(_) => Mark::Unmarked,
        Content::Nothing => Mark::Unmarked,
    }
}

// Whether the expected signal should have come before this odometer.
pub fn is_overdue(linking: Linking, odometer: u32) -> bool
    ensures { result ≡ is_overdue linking odometer }
{
    match linking {
        Linking::Unset => false,
        Linking::Set { distance, from } => 5 * beyond(odometer, from) > 6 * (distance as u64),
    }
}

// Where the expected signal is missed.
pub fn missed_place(linking: Linking) -> u64
    ensures { result ≡ missed_place linking }
{
    match linking {
        Linking::Unset => 0,
        Linking::Set { distance, from } => from as u64 + 6 * (distance as u64) / 5,
    }
}
