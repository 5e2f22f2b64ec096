// What is known after a group.
ghost use Rattle.std.specs.Prelude.{◌≡◌};
ghost use Rattle.ride.specs.State.{nothing_known};
ghost use Rattle.ride.specs.Closing.{linking_from, main_from, known_from};

use crate::{Known, Linking};
use group::{Content, Number, Told};

// Nothing is known.
pub fn nothing_known() -> Known
    ensures { result ≡ nothing_known }
{
    Known {
        linking: Linking::Unset,
        main: Told::Unknown,
        target: Told::Unknown,
        number: Number::None,
    }
}

// The main speed after a present signal that tells this.
fn main_from(told: Told, before: Told) -> Told
    ensures { result ≡ main_from told before }
{
    match told {
        Told::Kmh(v) => Told::Kmh(v),
        Told::Unknown => before,
    }
}

// The linking that a present signal sets.
fn linking_from(distance: u32, preset: bool, place: u32) -> Linking
    ensures { result ≡ linking_from distance preset place }
{
    if preset {
        return Linking::Unset;
    }
    Linking::Set {
        distance,
        from: place,
    }
}

// What is known after an accepted group: a present signal sets it, all others leave it.
pub fn known_from(content: Content, place: u32, number: Number, known: Known) -> Known
    ensures { result ≡ known_from content place number known }
{
    match content {
        Content::Signal {
            distance,
            preset,
            main,
            target,
        } => {
            let before = known.main;
            Known {
                linking: linking_from(distance, preset, place),
                main: main_from(main, before),
                target,
                number,
            }
        }
        Content::Warning { distance: _ } => known,
        Content::Route(_) => known,
        Content::Nothing => known,
    }
}
