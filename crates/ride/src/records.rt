// The eight bytes of a record: odometer, kind, and the received words; their check.
ghost use Rattle.std.specs.Prelude.{◌≡◌, ◌+◌, ◌*◌};
ghost use Rattle.ride.specs.Record.{odometer_of, in_order_meant, passed_of, check_record};
ghost use Rattle.ride.specs.Says.{says_checked};

use crate::{Checked, Passed, Ride, Wrong};
use group::Heard;

// Four bytes as a number, high byte first.
pub fn high_first(a: u8, b: u8, c: u8, d: u8) -> u32
    ensures { result ≡ ((a * 256 + b) * 256 + c) * 256 + d }
{
    ((a as u32 * 256 + b as u32) * 256 + c as u32) * 256 + d as u32
}

// The odometer in dm: bytes 0 to 3, high byte first.
fn odometer_of(bytes: [u8; 8]) -> u32
    ensures { result ≡ odometer_of bytes }
{
    high_first(bytes[0], bytes[1], bytes[2], bytes[3])
}

// Whether the kind is at most 3, and bytes 5 to 7 are zero for the kinds 1 to 3.
fn in_order(bytes: [u8; 8]) -> bool
    ensures { result ≡ in_order_meant bytes }
{
    let kind = bytes[4];
    if kind == 0 {
        return true;
    }
    let x = bytes[5];
    let y = bytes[6];
    let z = bytes[7];
    (kind <= 3) & ((x == 0) & (y == 0) & (z == 0))
}

// What the record says beyond its odometer, by its kind.
fn what_passed(bytes: [u8; 8]) -> Passed
    ensures { result ≡ passed_of bytes }
{
    match bytes[4] {
        0 => Passed::Balise(Heard::Words(bytes[5], bytes[6], bytes[7])),
        1 => Passed::Balise(Heard::Marker),
        2 => Passed::Balise(Heard::Unreadable),
        _ => Passed::Position,
    }
}

// The check of a record's eight bytes: 16, 18, 17 in this order, or what the record says. That is
// read first, since its kind is looked at then once and not again after the odometer.
pub fn check_record(ride: Ride, bytes: [u8; 8]) -> Result<Checked, Wrong>
    ensures { says_checked result ≡ check_record ride.odometer bytes }
{
    let passed = what_passed(bytes);
    if !in_order(bytes) {
        return Err(Wrong::Malformed);
    }
    let odometer = odometer_of(bytes);
    if odometer > 4000000000 {
        return Err(Wrong::TooHigh);
    }
    if odometer < ride.odometer {
        return Err(Wrong::TooLow);
    }
    Ok(Checked { odometer, passed })
}
