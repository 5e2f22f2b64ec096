// The record of a thing at a place.
ghost use Rattle.std.specs.Prelude.{◌≡◌};
ghost use Rattle.words.specs.Answer.{gives};
ghost use Rattle.trace_text.specs.Record.{bytes_of, record_of_meant, recording, eight_zeroes};
ghost use Rattle.trace_text.specs.Says.{says_making_went, says_recorded};
ghost use Rattle.trace_text.specs.declared.What.{What};

use crate::{MakingWent, Recorded};
use telegram::{NotSpelt, Spelt};

// No record, and why.
fn refused(how: MakingWent) -> Recorded
    ensures { says_recorded result ≡ record { answer = says_making_went how; bytes = eight_zeroes } }
{
    Recorded {
        bytes: [0, 0, 0, 0, 0, 0, 0, 0],
        how,
    }
}

// The record of a kind with three words.
pub fn made(place: u32, kind: u8, x: u8, y: u8, z: u8) -> Recorded
    ensures { says_recorded result ≡ recording (gives (bytes_of place kind x y z)) }
{
    let a = (place / 16777216) as u8;
    let b = (place / 65536 % 256) as u8;
    let c = (place / 256 % 256) as u8;
    let d = (place % 256) as u8;
    Recorded {
        bytes: [a, b, c, d, kind, x, y, z],
        how: MakingWent::Made,
    }
}

// The record of a balise with these figures, or refusal 2 or 3.
pub fn balise(place: u32, x: u8, y: u16, z: u8) -> Recorded
    ensures { says_recorded result ≡ recording (record_of_meant place (What.Balise x y z)) }
{
    match telegram::spell(x, y, z) {
        Ok(Spelt { x: a, y: b, z: c }) => made(place, 0, a, b, c),
        Err(NotSpelt::TooLarge) => refused(MakingWent::TooLarge),
        Err(NotSpelt::Fifteen) => refused(MakingWent::Fifteen),
    }
}
