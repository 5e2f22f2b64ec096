// What a ride knows as figures.
ghost use Rattle.std.specs.Prelude.{◌≡◌, ◌%◌, ◌∷◌, [], get_or};
ghost use Rattle.state_bytes.specs.Figures.{figure_at_meant};
ghost use Rattle.ride_bytes.specs.Things.{told_figure, told_of, number_figure, number_of, distance_figure, from_figure, linking_of};
ghost use Rattle.ride_bytes.specs.Rides.{known_figures, known_of};

use group::{Number, Told};
use ride::{Known, Linking, Ride};
use state_bytes::{figure_at, low32};

// What stands where nothing is set.
const NOTHING: u64 = u64::MAX;

// A speed as a figure.
fn told_figure(told: Told) -> u64
    ensures { (result ≡ told_figure told) × (told_of result ≡ told) }
{
    match told {
        Told::Unknown => NOTHING,
        Told::Kmh(v) => v as u64,
    }
}

// A number as a figure.
fn number_figure(number: Number) -> u64
    ensures { (result ≡ number_figure number) × (number_of result ≡ number) }
{
    match number {
        Number::None => NOTHING,
        Number::Figure(n) => n as u64,
    }
}

// Linking as two figures.
fn linking_figures(linking: Linking) -> [u64; 2]
    ensures { (result ≡ distance_figure linking ∷ from_figure linking ∷ []) × (linking_of (get_or result 0 0) (get_or result 1 0) ≡ linking) }
{
    match linking {
        Linking::Unset => [NOTHING, NOTHING],
        Linking::Set { distance, from } => [distance as u64, from as u64],
    }
}

// The odometer, linking's distance and place, main speed, target and number; 2^64 - 1 where nothing
// is set.
pub fn known_figures(ride: Ride) -> [u64; 6]
    ensures value { result ≡ known_figures ride }
    ensures odometer_value { (ride.odometer % 4294967296 ≡ ride.odometer) × (known_of (λ i. get_or result i 0) ≡ ride.known) }
{
    let known = ride.known;
    let linking = known.linking;
    let main = known.main;
    let target = known.target;
    let number = known.number;
    let l = linking_figures(linking);
    [
        ride.odometer as u64,
        l[0],
        l[1],
        told_figure(main),
        told_figure(target),
        number_figure(number),
    ]
}

// The speed of a figure.
fn told_of(figure: u64) -> Told
    ensures { result ≡ told_of figure }
{
    if figure < 65536 {
        return Told::Kmh(figure as u16);
    }
    Told::Unknown
}

// The number of a figure.
fn number_of(figure: u64) -> Number
    ensures { result ≡ number_of figure }
{
    if figure < 65536 {
        return Number::Figure(figure as u16);
    }
    Number::None
}

// The linking of two figures.
fn linking_of(distance: u64, from: u64) -> Linking
    ensures { result ≡ linking_of distance from }
{
    if distance < 4294967296 {
        return Linking::Set {
            distance: distance as u32,
            from: low32(from),
        };
    }
    Linking::Unset
}

// What is known in some bytes.
pub fn read(bytes: &[u8; 144]) -> Known
    ensures { result ≡ known_of (figure_at_meant bytes.now) }
{
    Known {
        linking: linking_of(figure_at(bytes, 1), figure_at(bytes, 2)),
        main: told_of(figure_at(bytes, 3)),
        target: told_of(figure_at(bytes, 4)),
        number: number_of(figure_at(bytes, 5)),
    }
}
