// A tape after what came.
ghost use Rattle.std.specs.Prelude.{◌≡◌};
ghost use Rattle.recording.specs.Recording.{with_odometer, hears_on, opens, closes, positioned, cut, is_due, is_above};
ghost use Rattle.recording.specs.declared.Tape.{Tape};

use crate::Tape;
use antenna::{Ear, Stand};

// In a frame with this odometer.
pub fn with_odometer(tape: Tape, odometer: u32) -> Tape
    ensures { result ≡ with_odometer tape odometer }
{
    let ear = tape.ear;
    let last = tape.last;
    Tape {
        ear,
        odometer,
        opened: tape.opened,
        last,
    }
}

// After bits that bring nothing.
pub fn hears_on(tape: Tape, ear: Ear) -> Tape
    ensures { result ≡ hears_on tape ear }
{
    let last = tape.last;
    Tape {
        ear,
        odometer: tape.odometer,
        opened: tape.opened,
        last,
    }
}

// After the bit that opens a contact.
pub fn opens(tape: Tape, ear: Ear) -> Tape
    ensures { result ≡ opens tape ear }
{
    let last = tape.last;
    Tape {
        ear,
        odometer: tape.odometer,
        opened: tape.odometer,
        last,
    }
}

// After the bit that closes one, and its record.
pub fn closes(tape: Tape, ear: Ear) -> Tape
    ensures { result ≡ closes tape ear }
{
    Tape {
        ear,
        odometer: tape.odometer,
        opened: tape.opened,
        last: Some(tape.opened),
    }
}

// After a position record.
pub fn positioned(tape: Tape) -> Tape
    ensures { result ≡ positioned tape }
{
    let ear = tape.ear;
    Tape {
        ear,
        odometer: tape.odometer,
        opened: tape.opened,
        last: Some(tape.odometer),
    }
}

// After the record of a contact that the lead's end cuts.
pub fn cut(tape: Tape) -> Tape
    ensures { result ≡ cut tape }
{
    let ear = tape.ear;
    let outside = Ear {
        history: ear.history,
        stand: Stand::Outside,
    };
    closes(tape, outside)
}

// Whether a position record is due after a frame.
pub fn is_due(tape: Tape) -> bool
    ensures { result ≡ is_due tape }
{
    let ear = tape.ear;
    let stand = ear.stand;
    let last = tape.last;
    match stand {
        Stand::Inside(_) => false,
        Stand::Outside => match last {
            None => true,
            Some(place) => (place as u64) + 10 <= (tape.odometer as u64),
        },
    }
}

// Whether the odometer is above the last record's.
pub fn is_above(last: Option<u32>, odometer: u32) -> bool
    ensures { result ≡ is_above last odometer }
{
    match last {
        None => false,
        Some(place) => place < odometer,
    }
}
