// The records of a trace as lines of text (house), in and out: `1000 1 8 5`, `6390 12 17`,
// `13000 marker`, `22100 unreadable`, `6000 position`, `15000 raw 04 00 00 00`.
// Promises: every line is answered: a thing at a place, nothing, or unreadable; a thing is a
// record, or is refused with 2 or 3.
// Specification: specs/Said.antt (what a line says), specs/Record.antt (its record),
// specs/Thing.antt (what a record says), specs/Line.antt (its line).
#![tactic(auto)]

ghost use Rattle.std.specs.Prelude.{◌≡◌};
ghost use Rattle.trace_text.specs.Said.{said, thing};
ghost use Rattle.trace_text.specs.Record.{record_of_meant, recording};
ghost use Rattle.trace_text.specs.Says.{says_recorded};
ghost use Rattle.trace_text.specs.Thing.{thing_at};
ghost use Rattle.trace_text.specs.Line.{thing_text, record_line};
ghost use Rattle.text.specs.Put.{put, came};

mod making;
mod putting;
mod reading;
mod things;

use lines::{TextLine, Word};

// What lies at a place: a balise with its figures X, Y and Z (for X = 12 with its number Y), where
// one too large for its type stands as the largest of it; a marker, something unreadable, a
// position only; or any record, by its kind and words.
#[derive(Clone, Copy)]
pub enum What {
    Balise { x: u8, y: u16, z: u8 },
    Marker,
    Unreadable,
    Position,
    Raw { kind: u8, x: u8, y: u8, z: u8 },
}

// What a line says: nothing, what lies at a place in dm, or it is unreadable.
// Stays as it is: a `Result<Option<..>, ..>` is no plainer, since a line has three plain ends.
#[derive(Clone, Copy)]
pub enum Said {
    Nothing,
    Thing { place: u32, what: What },
    Unreadable,
}

// How making a record went: made, or refusal 2 or 3.
#[derive(Clone, Copy)]
pub enum MakingWent {
    Made,
    TooLarge,
    Fifteen,
}

// What making a record answers: its eight bytes, all zero if it is not made, and how it went.
#[derive(Clone, Copy)]
pub struct Recorded {
    pub bytes: [u8; 8],
    pub how: MakingWent,
}

// What a line says.
pub fn read(line: TextLine) -> Said
    ensures { result ≡ said line }
{
    if line.count == 0 {
        return Said::Nothing;
    }
    let words: &[Word] = &line.words;
    let first = words[0];
    match first.number {
        Ok(place) => thing(place, reading::what_of(line)),
        Err(_) => Said::Unreadable,
    }
}

// What was read, at its place.
fn thing(place: u32, read: Option<What>) -> Said
    ensures { result ≡ thing place read }
{
    match read {
        Some(what) => Said::Thing { place, what },
        None => Said::Unreadable,
    }
}

// The record of what lies at a place.
pub fn record_of(place: u32, what: What) -> Recorded
    ensures { says_recorded result ≡ recording (record_of_meant place what) }
{
    match what {
        What::Balise { x, y, z } => making::balise(place, x, y, z),
        What::Marker => making::made(place, 1, 0, 0, 0),
        What::Unreadable => making::made(place, 2, 0, 0, 0),
        What::Position => making::made(place, 3, 0, 0, 0),
        What::Raw { kind, x, y, z } => making::made(place, kind, x, y, z),
    }
}

// What the record at a byte of a trace says, or nothing where no whole one stands there.
pub fn thing_at(trace: &[u8], at: usize) -> Said
    ensures { result ≡ thing_at trace.now at }
{
    if trace.len() < 8 {
        return Said::Nothing;
    }
    if at > trace.len() - 8 {
        return Said::Nothing;
    }
    let place = things::place_of(trace[at], trace[at + 1], trace[at + 2], trace[at + 3]);
    let what = things::thing_of(trace[at + 4], trace[at + 5], trace[at + 6], trace[at + 7]);
    Said::Thing { place, what }
}

// The line of what lies at a place, with the number of its record, into buf from `at` on, and the
// place after it; without room buf stays as it is, and the answer is `at`.
pub fn put_record(number: u64, place: u32, what: What, buf: &mut [u8], at: usize) -> usize
    ensures { came result buf.new ≡ put (record_line number place what) buf.old at }
{
    let mut space = [0u8; 128];
    let n = putting::put_line(number, place, what, &mut space, 0);
    text::put(&space[..n], buf, at)
}

// What lies at a place, as `put_record` writes it before the number, into buf from `at` on, and the
// place after it; without room buf stays as it is, and the answer is `at`.
pub fn put_thing(place: u32, what: What, buf: &mut [u8], at: usize) -> usize
    ensures { came result buf.new ≡ put (thing_text place what) buf.old at }
{
    let mut space = [0u8; 128];
    let n = putting::put_thing(place, what, &mut space, 0);
    text::put(&space[..n], buf, at)
}
