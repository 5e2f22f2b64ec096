// A ride as bytes that a caller lends and keeps, in figures of eight bytes, and what it knows as
// figures that a caller may see.
// Promises: what is made of a ride reads back as that ride; any bytes at all read as some ride.
// Specification: specs/Things.antt (a speed, a number, linking, a balise as figures), Rides.antt
// (the figures of a ride, and the ride in some bytes).
#![tactic(auto)]

ghost use Rattle.std.specs.Prelude.{◌≡◌};
ghost use Rattle.ride_bytes.specs.Rides.{ride_bytes, ride_in};

mod groups;
mod known;

pub use known::known_figures;
use ride::Ride;
use state_bytes::{figure_at, low32};

// A ride as bytes.
pub fn ride_bytes(ride: Ride) -> [u8; 144]
    ensures value { result ≡ ride_bytes ride }
    ensures result_value { ride_in result ≡ ride }
{
    let k = known_figures(ride);
    let group = ride.group;
    let kept = group.kept;
    let g = groups::figures(kept, group.count, group.last);
    let figures = [
        k[0], k[1], k[2], k[3], k[4], k[5], g[0], g[1], g[2], g[3], g[4], g[5], g[6], g[7], g[8],
        g[9], g[10], g[11],
    ];
    let mut bytes = [0u8; 144];
    state_bytes::spread(&figures, &mut bytes);
    bytes
}

// The ride in some bytes.
pub fn ride_in(bytes: &[u8; 144]) -> Ride
    ensures { result ≡ ride_in bytes.now }
{
    Ride {
        odometer: low32(figure_at(bytes, 0)),
        group: groups::read(bytes),
        known: known::read(bytes),
    }
}
