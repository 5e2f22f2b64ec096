// A tape at the two leads of the bench (docs/LEAD.md, "The lead" and "Recording", house): frames of
// odometer and line in, records of a trace out, in constant memory. A tape goes by value; frames
// are lent in pieces of any length, and each call goes on until the next record is due.
// Promises: one record for each contact of the line, at its odometer, with position records
// between; no record is ever refused.
// Specification: specs/Frame.antt (a frame), specs/Kept.antt (a contact's record),
// specs/Recording.antt (the records of a lead), specs/Asking.antt (one record at a time),
// specs/Says.antt (the answers); what is promised: specs/Laws.antt, Rising.antt, Contacts.antt,
// Document.antt.
#![tactic(auto)]

ghost use Rattle.std.specs.Prelude.{◌≡◌};
ghost use Rattle.recording.specs.Recording.{fresh};
ghost use Rattle.recording.specs.Asking.{go_on, finish};
ghost use Rattle.recording.specs.Says.{says_taken, says_ended};

mod frame;
mod going;
mod kept;
mod marking;

use antenna::{Ear, Stand};
use settings::Store;

// A tape: the ear at the line, the odometer in force, that of the frame in which the open contact
// opened, and the last record's.
#[derive(Clone, Copy)]
pub struct Tape {
    pub ear: Ear,
    pub odometer: u32,
    pub opened: u32,
    pub last: Option<u32>,
}

// What going on answers: the tape after it, the frame and the bit of its line to go on from, and
// the record, if one came; if none did, all frames are used.
#[derive(Clone, Copy)]
pub struct Taken {
    pub tape: Tape,
    pub frame: usize,
    pub bit: usize,
    pub came: Option<[u8; 8]>,
}

// What the end answers: the tape after it, and the record, if one came; if none did, there is no
// further one.
#[derive(Clone, Copy)]
pub struct Ended {
    pub tape: Tape,
    pub came: Option<[u8; 8]>,
}

// A tape at the lead's beginning.
pub fn fresh() -> Tape
    ensures { result ≡ fresh }
{
    Tape {
        ear: antenna::fresh(),
        odometer: 0,
        opened: 0,
        last: None,
    }
}

// From this bit of this frame on, to the next record or the last whole frame's end.
pub fn go_on(tape: Tape, store: Store, frames: &[u8], frame: usize, bit: usize) -> Taken
    ensures { says_taken result ≡ go_on store frames.now tape frame bit }
{
    going::over(tape, store, frames, frame, bit)
}

// At the lead's end: the record of a contact that is cut by it, then that of the last position.
pub fn end(tape: Tape) -> Ended
    ensures { says_ended result ≡ finish tape }
{
    let ear = tape.ear;
    let stand = ear.stand;
    let last = tape.last;
    match stand {
        Stand::Inside(_) => Ended {
            tape: marking::cut(tape),
            came: Some(kept::blank_at(tape.opened, 2)),
        },
        Stand::Outside => {
            if marking::is_above(last, tape.odometer) {
                Ended {
                    tape: marking::positioned(tape),
                    came: Some(kept::blank_at(tape.odometer, 3)),
                }
            } else {
                Ended { tape, came: None }
            }
        }
    }
}
