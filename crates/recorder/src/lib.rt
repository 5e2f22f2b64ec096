// From a contact, judged, to a record of a trace: the eight bytes of document 01's "A ride".
// Promises: a reading is kept with its received words, a marker as one, what could not be read as
// unreadable; what is refused has no bytes.
// Specification: specs/Record.antt (the bytes and the refusals), specs/Says.antt (the answer).
// Laws: the words of a reading are those received at its first place (`AsReceived` of
// specs/Received.antt).
#![tactic(auto)]

ghost use Rattle.std.specs.Prelude.{◌≡◌};
ghost use Rattle.recorder.specs.Record.{record_of_meant};
ghost use Rattle.recorder.specs.Says.{says_recorded};

mod keeping;

use contact::Judged;

// Why no record is made: 2, 3, 4, 5 or 18.
#[derive(Clone, Copy, PartialEq, Eq)]
pub enum RecordRefused {
    TooLarge,
    Fifteen,
    NotSeven,
    Beyond,
    TooHigh,
}

// The eight bytes of a judged contact at this odometer: a reading as kind 0 with its words, a
// marker as kind 1, refusals 7 and 8 as kind 2; 4 and 5 are handed on (for figures that no telegram
// has 2 and 3), then 18.
pub fn record_of(odometer: u32, judged: Judged) -> Result<[u8; 8], RecordRefused>
    ensures { says_recorded result ≡ record_of_meant odometer judged }
{
    let kept = keeping::content_of(judged)?;
    keeping::made_at(odometer, kept)
}
