// The settings that are held by whoever goes over a trace.
ghost use Rattle.std.specs.Prelude.{◌≡◌};
ghost use Rattle.settings.specs.At.{hold, held_for};
ghost use Rattle.ride.specs.At.{odometer_at};

use crate::trace::odometer_at;
use settings::{Held, Store};

// The settings to hold at a place that is asked for: those in force there; where asking is refused,
// those held before.
fn hold(store: Store, held: Held, place: u32) -> Held
    ensures { result ≡ hold store held place }
{
    let asked = settings::at(store, place);
    match asked {
        Ok(next) => next,
        Err(_) => held,
    }
}

// The settings to hold for the record at an index of the trace: the store is asked only where its
// odometer leaves the places of those that are held. Where asking is refused they stay: 18 is then
// said of the record itself, and a store's own refusal was said when its place 0 was asked for.
pub fn held_at(store: Store, held: Held, trace: &[u8], i: usize) -> Held
    ensures { result ≡ held_for store held (odometer_at trace.now i) }
{
    let odometer = odometer_at(trace, i);
    if settings::leaves(held, odometer) {
        return hold(store, held, odometer);
    }
    held
}
