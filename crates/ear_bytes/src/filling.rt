// Records into a lent buffer, one after the other, while there is room.
ghost use Rattle.std.specs.Prelude.{◌≡◌, length};
ghost use Rattle.text.specs.Put.{put, came};
ghost use Rattle.recording.specs.Says.{says_taken};
ghost use Rattle.ear_bytes.specs.Inside.{coming, either};
ghost use Rattle.ear_bytes.specs.Says.{says};

use crate::{Hearing, Wrote};
use recording::{Taken, Tape};
use settings::Store;

// What was written.
fn wrote(tape: Tape, frames: usize, bit: usize, bytes: usize) -> Wrote
    ensures { result ≡ record { hearing = record { tape = tape; bit = bit }; frames = frames; bytes = bytes } }
{
    Wrote {
        hearing: Hearing { tape, bit },
        frames,
        bytes,
    }
}

// A record into the buffer from `at` on, and the place after it.
fn put_one(bytes: [u8; 8], buffer: &mut [u8], at: usize) -> usize
    ensures buffer_after { came result buffer.new ≡ put bytes buffer.old at }
    ensures bytes_len { length bytes ≡ 8 }
{
    text::put(&bytes, buffer, at)
}

// What comes next: at the lead's end, or of a piece.
fn next_record(ends: bool, tape: Tape, store: Store, lead: &[u8], frame: usize, bit: usize) -> Taken
    ensures { says_taken result ≡ coming ends store lead.now tape frame bit }
{
    if ends {
        let ended = recording::end(tape);
        let then = ended.tape;
        return Taken {
            tape: then,
            frame,
            bit,
            came: ended.came,
        };
    }
    recording::go_on(tape, store, lead, frame, bit)
}

// Record after record, at the lead's end or of a piece.
pub fn fill(ends: bool, hearing: Hearing, store: Store, lead: &[u8], buffer: &mut [u8]) -> Wrote
    ensures { says result buffer.new ≡ either ends hearing store lead.now buffer.old }
{
    let mut tape = hearing.tape;
    let mut frame: usize = 0;
    let mut bit = hearing.bit;
    let mut at: usize = 0;
    // Stays as it is: no `for` is plainer, since the records that come are not counted before.
    while buffer.len() - at >= 8 {
        let taken = next_record(ends, tape, store, lead, frame, bit);
        let next = taken.tape;
        tape = next;
        frame = taken.frame;
        bit = taken.bit;
        let Some(bytes) = taken.came else {
            return wrote(tape, frame, bit, at);
        };
        at = put_one(bytes, buffer, at);
    }
    wrote(tape, frame, bit, at)
}
