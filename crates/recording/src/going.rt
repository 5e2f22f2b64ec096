// From one record to the next.
ghost use Rattle.std.specs.Prelude.{◌≡◌, ◌≤◌, ◌<◌, Some};
ghost use Rattle.words.specs.Answer.{pick};
ghost use Rattle.settings.specs.At.{leaves};
ghost use Rattle.contact.specs.Says.{says_judged};
ghost use Rattle.recorder.specs.Record.{bytes_of, blank};
ghost use Rattle.recording.specs.Kept.{record_at};
ghost use Rattle.recording.specs.Recording.{none_held, held_at, closes, positioned};
ghost use Rattle.recording.specs.Asking.{go_on, used_up};
ghost use Rattle.recording.specs.Says.{says_taken};

use crate::{Taken, Tape, frame, kept, marking};
use antenna::{Ear, Until};
use contact::Judged;
use settings::{Held, Store};

// Nothing is held before a store was asked.
fn none_held() -> Held
    ensures { result ≡ none_held }
{
    Held {
        gap: 0,
        s: 0,
        t: 0,
        from: 0,
        until: 0,
    }
}

// The settings in force at this odometer, as the store answers; none where it refuses to.
fn in_force(store: Store, odometer: u32) -> Held
    ensures { result ≡ held_at store odometer }
{
    let asked = settings::at(store, odometer);
    match asked {
        Ok(held) => held,
        Err(_) => none_held(),
    }
}

// The settings in force at this odometer: the store is asked only where those held are not.
fn held_for(store: Store, held: Held, odometer: u32) -> Held
    ensures { result ≡ pick (leaves held odometer) (held_at store odometer) held }
{
    if settings::leaves(held, odometer) {
        return in_force(store, odometer);
    }
    held
}

// A record came.
fn gave(tape: Tape, frame: usize, bit: usize, bytes: [u8; 8]) -> Taken
    ensures { result ≡ record { tape = tape; frame = frame; bit = bit; came = Some bytes } }
{
    Taken {
        tape,
        frame,
        bit,
        came: Some(bytes),
    }
}

// The record of a contact that closed, at the odometer at which it opened.
fn of_contact(tape: Tape, ear: Ear, frame: usize, bit: usize, judged: Judged) -> Taken
    ensures { result ≡ record { tape = closes tape ear; frame = frame; bit = bit; came = Some (record_at tape.opened (says_judged judged)) } }
{
    let next = marking::closes(tape, ear);
    gave(next, frame, bit, kept::record_at(tape.opened, judged))
}

// The record of a position, before this frame.
fn of_position(tape: Tape, frame: usize) -> Taken
    ensures { result ≡ record { tape = positioned tape; frame = frame; bit = 0; came = Some (bytes_of tape.odometer (blank 3)) } }
{
    let next = marking::positioned(tape);
    gave(next, frame, 0, kept::blank_at(tape.odometer, 3))
}

// All frames are used.
fn nothing(tape: Tape, frame: usize, bit: usize) -> Taken
    ensures { says_taken result ≡ used_up tape frame bit }
{
    Taken {
        tape,
        frame,
        bit,
        came: None,
    }
}

// From this bit of this frame on, to the next record or the last whole frame's end.
pub fn over(tape: Tape, store: Store, frames: &[u8], frame: usize, bit: usize) -> Taken
    ensures { says_taken result ≡ go_on store frames.now tape frame bit }
{
    let n = frames.len() / 16;
    let mut held = none_held();
    let mut here = tape;
    let mut k = frame;
    let mut i = bit;
    // Stays as it is: a `for` is no plainer, since a turn that opens a contact stays in its frame.
    while k < n {
        let given = frame::odometer(frames, k);
        let odometer = frame::accepted_after(here.odometer, given);
        here = marking::with_odometer(here, odometer);
        held = held_for(store, held, here.odometer);
        let now = here.ear;
        match frame::hear(now, frames, k, i, held.s, held.t) {
            Until::Opened { ear, at } => {
                here = marking::opens(here, ear);
                i = at + 1;
            }
            Until::Closed {
                ear,
                at,
                length: _,
                judged,
            } => return of_contact(here, ear, k, at + 1, judged),
            Until::Over(ear) => {
                here = marking::hears_on(here, ear);
                if marking::is_due(here) {
                    return of_position(here, k + 1);
                }
                k += 1;
                i = 0;
            }
            Until::Beyond => return nothing(here, k, i),
        }
    }
    nothing(here, k, i)
}
