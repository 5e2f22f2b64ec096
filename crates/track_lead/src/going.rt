// A way, line by line.
ghost use Rattle.std.specs.Prelude.{◌≡◌, ◌+◌, min};
ghost use Rattle.track_lead.specs.Way.{is_sent, is_near, first_of, after, take, highest, from_of, from, until};
ghost use Rattle.track_lead.specs.Says.{says_taken};

use crate::{Place, Taken, Thing, TrackWay};

// The highest place, in dm.
const HIGHEST: u32 = 4000000000;

// Whether something is sent there.
fn is_sent(thing: Thing) -> bool
    ensures { result ≡ is_sent thing }
{
    match thing {
        Thing::Balise { x: _, y: _, z: _ } => true,
        Thing::Marker => true,
        Thing::Unreadable => true,
        Thing::Nothing => false,
    }
}

// Whether a place is fewer than four decimetres after the thing before.
fn is_near(thing: Place, place: u32) -> bool
    ensures { result ≡ is_near thing place }
{
    match thing {
        Place::Never => false,
        Place::At(before) => (place as u64) < (before as u64) + 4,
    }
}

// The first place, after one more.
fn first_of(first: Place, place: u32) -> Place
    ensures { result ≡ first_of first place }
{
    match first {
        Place::Never => Place::At(place),
        Place::At(before) => Place::At(before),
    }
}

// The way after a line that is taken.
fn after(way: TrackWay, place: u32, thing: Thing) -> TrackWay
    ensures { result ≡ after way place thing }
{
    let before = way.first;
    let first = first_of(before, place);
    let last = way.thing;
    if is_sent(thing) {
        return TrackWay {
            first,
            last: place,
            thing: Place::At(place),
        };
    }
    TrackWay {
        first,
        last: place,
        thing: last,
    }
}

pub fn take(way: TrackWay, place: u32, thing: Thing) -> Taken
    ensures { says_taken result ≡ take way place thing }
{
    if place > HIGHEST {
        return Taken::TooHigh;
    }
    if place < way.last {
        return Taken::Lower;
    }
    let before = way.thing;
    if is_sent(thing) & is_near(before, place) {
        return Taken::TooNear;
    }
    Taken::On(after(way, place, thing))
}

// The first decimetre of a way's lead: ten before its first place, or 0.
pub fn from(way: TrackWay) -> u32
    ensures { result ≡ from way }
{
    let first = way.first;
    from_of(first)
}

fn from_of(first: Place) -> u32
    ensures { result ≡ from_of first }
{
    match first {
        Place::Never => 0,
        Place::At(place) => { if place < 10 { 0 } else { place - 10 } }
    }
}

// The last decimetre of a way that ends with this place.
fn last_of(last: u32) -> u32
    ensures { result ≡ min (last + 10) highest }
{
    if last > HIGHEST - 10 {
        return HIGHEST;
    }
    last + 10
}

pub fn until(way: TrackWay) -> u32
    ensures { result ≡ until way }
{
    let first = way.first;
    match first {
        Place::Never => 0,
        Place::At(_) => last_of(way.last) + 1,
    }
}
