// A hearing at the lead (docs/LEAD.md) for a caller that lends memory: its state as bytes that the
// caller keeps, and its records into a lent buffer. Every figure of a hearing is eight bytes, the
// highest first.
// Promises: what is made of a hearing reads back as that hearing; any bytes at all read as some
// hearing; pieces of any length and rooms of any size give the records of the whole lead.
// Specification: specs/Ears.antt (the figures of a hearing, and the hearing in some bytes),
// specs/Hearing.antt (the records that have room), specs/Inside.antt (the one loop for both),
// specs/Sizes.antt (how large the figures can be); what is promised of pieces and rooms:
// specs/Laws.antt.
#![tactic(auto)]

ghost use Rattle.std.specs.Prelude.{◌≡◌};
ghost use Rattle.ear_bytes.specs.Ears.{ear_bytes, ear_in};
ghost use Rattle.ear_bytes.specs.Hearing.{fresh, hear, end};
ghost use Rattle.ear_bytes.specs.Says.{says};

mod figures;
mod filling;
mod reading;

use recording::Tape;
use settings::Store;

// A hearing under way: the tape at the lead, and the bit of the next frame to go on from.
#[derive(Clone, Copy)]
pub struct Hearing {
    pub tape: Tape,
    pub bit: usize,
}

// What a call wrote: the hearing then, how many frames of the piece are used, and how many bytes of
// records stand in the buffer.
#[derive(Clone, Copy)]
pub struct Wrote {
    pub hearing: Hearing,
    pub frames: usize,
    pub bytes: usize,
}

// A hearing as bytes.
pub fn ear_bytes(hearing: Hearing) -> [u8; 184]
    ensures value { result ≡ ear_bytes hearing }
    ensures result_value { ear_in result ≡ hearing }
{
    let figures = figures::of_hearing(hearing);
    let mut bytes = [0u8; 184];
    state_bytes::spread(&figures, &mut bytes);
    bytes
}

// The hearing in some bytes.
pub fn ear_in(bytes: &[u8; 184]) -> Hearing
    ensures { result ≡ ear_in bytes.now }
{
    reading::hearing(bytes)
}

// A hearing at the lead's beginning.
pub fn fresh() -> Hearing
    ensures { result ≡ fresh }
{
    let tape = recording::fresh();
    Hearing { tape, bit: 0 }
}

// The records of a piece of the lead at the start of a buffer, from where the hearing stands, until
// its whole frames are used or there is no room for a record more. A frame that is not used is to
// be lent again, as the first of the next piece.
pub fn hear(hearing: Hearing, store: Store, lead: &[u8], buffer: &mut [u8]) -> Wrote
    ensures { says result buffer.new ≡ hear hearing store lead.now buffer.old }
{
    filling::fill(false, hearing, store, lead, buffer)
}

// The records of the lead's end likewise: at most two, and none where there is no further one.
pub fn end(hearing: Hearing, buffer: &mut [u8]) -> Wrote
    ensures { says result buffer.new ≡ end hearing buffer.old }
{
    // Settings play no part at the end: a store that is refused stands for them.
    let begun = settings::begin(0, 0, 0);
    let store = begun.store;
    filling::fill(true, hearing, store, b"", buffer)
}
