// The lines of a lead: frames of odometer and line in, the lines of the ride over their records
// out, with reasons, as text in a lent buffer. A ride under way goes by value; the frames are lent
// in pieces of any length, and each call goes on as far as the room allows.
// Promises: the lines are those that the crate ride_text writes with reasons of the records that
// the crate recording makes of the lead; bytes around the text stay.
// Specification: specs/Places.antt (where a reading stands), List.antt (the listing), Says.antt
// (the answers), Inside.antt (the next record, one record listed); what is promised of all calls
// together: crates/lead_text_laws/specs.
#![tactic(auto)]

ghost use Rattle.std.specs.Prelude.{◌≡◌};
ghost use Rattle.lead_text.specs.List.{fresh, list_frames, list_end};
ghost use Rattle.lead_text.specs.Says.{says_written};

mod coming;
mod pieces;
mod record_lines;

use recording::Tape;
use ride::Ride;
use settings::{Bad, Store};

// A ride under way: the tape at the lead, the ride over the records that came, the number of the
// next one, and the frame of the lent piece and the bit of its line to go on from.
#[derive(Clone, Copy)]
pub struct Underway {
    pub tape: Tape,
    pub ride: Ride,
    pub number: u64,
    pub frame: usize,
    pub bit: usize,
}

// How far a call came, and how many bytes it wrote: all that was lent is used; or the room is used,
// and the same is lent again.
#[derive(Clone, Copy)]
pub enum HowFar {
    Over(usize),
    Full(usize),
}

// What a call answers: the ride then, and how far it came; or the refusal of the settings.
#[derive(Clone, Copy)]
pub struct Written {
    pub underway: Underway,
    pub how: Result<HowFar, Bad>,
}

// A ride at the beginning of a lead.
pub fn fresh() -> Underway
    ensures { result ≡ fresh }
{
    let tape = recording::fresh();
    let ride = ride::fresh();
    Underway {
        tape,
        ride,
        number: 1,
        frame: 0,
        bit: 0,
    }
}

// The lines of the records that come of a piece of the lead, from where the ride stands, at the
// start of out: of as many records as surely have room, 320 bytes each. Where the piece is used,
// the next one is gone over from its first frame on.
pub fn list_frames(underway: Underway, store: Store, frames: &[u8], out: &mut [u8]) -> Written
    ensures { says_written result out.new ≡ list_frames underway store frames.now out.old }
{
    match settings::at(store, 0) {
        Err(bad) => Written {
            underway,
            how: Err(bad),
        },
        Ok(_) => pieces::over(false, underway, store, frames, out),
    }
}

// The lines of the records that come at the lead's end, likewise. The end of the ride is
// `ride_text::put_end`'s.
pub fn list_end(underway: Underway, store: Store, out: &mut [u8]) -> Written
    ensures { says_written result out.new ≡ list_end underway store out.old }
{
    match settings::at(store, 0) {
        Err(bad) => Written {
            underway,
            how: Err(bad),
        },
        Ok(_) => pieces::over(true, underway, store, b"", out),
    }
}
