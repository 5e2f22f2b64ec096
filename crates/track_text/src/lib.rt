// The text of a track (house), line by line: the lines of a trace's text, but for `raw`.
// Promises: every line is answered: a thing at a place, nothing, unreadable, or refusal 2 or 3.
// Specification: specs/Read.antt.
#![tactic(auto)]

ghost use Rattle.std.specs.Prelude.{◌≡◌};
ghost use Rattle.track_text.specs.Read.{thing_at, read_said, read, balise};
ghost use Rattle.telegram.specs.Spelling.{asked, spell};

use lines::TextLine;
use telegram::{NotSpelt, Spelt};
use trace_text::{Said, What};
use track_lead::Thing;

// What a line says: nothing, a thing at a place in dm, or why it is none.
// Stays as it is: a `Result<Option<..>, ..>` is no plainer, since a line has these ends side by side.
#[derive(Clone, Copy)]
pub enum Entry {
    Nothing,
    At { place: u32, thing: Thing },
    Unreadable,
    TooLarge,
    Fifteen,
}

// A balise of these figures at its place.
fn balise(place: u32, x: u8, y: u16, z: u8) -> Entry
    ensures { result ≡ balise place (spell (asked x y z)) }
{
    match telegram::spell(x, y, z) {
        Ok(Spelt { x: a, y: b, z: c }) => Entry::At {
            place,
            thing: Thing::Balise { x: a, y: b, z: c },
        },
        Err(NotSpelt::TooLarge) => Entry::TooLarge,
        Err(NotSpelt::Fifteen) => Entry::Fifteen,
    }
}

// What lies at a place.
fn thing_at(place: u32, what: What) -> Entry
    ensures { result ≡ thing_at place what }
{
    match what {
        What::Balise { x, y, z } => balise(place, x, y, z),
        What::Marker => Entry::At {
            place,
            thing: Thing::Marker,
        },
        What::Unreadable => Entry::At {
            place,
            thing: Thing::Unreadable,
        },
        What::Position => Entry::At {
            place,
            thing: Thing::Nothing,
        },
        What::Raw {
            kind: _,
            x: _,
            y: _,
            z: _,
        } => Entry::Unreadable,
    }
}

// What was said, as a line of a track.
fn read_said(said: Said) -> Entry
    ensures { result ≡ read_said said }
{
    match said {
        Said::Nothing => Entry::Nothing,
        Said::Thing { place, what } => thing_at(place, what),
        Said::Unreadable => Entry::Unreadable,
    }
}

// What a line of the text says.
pub fn read(line: TextLine) -> Entry
    ensures { result ≡ read line }
{
    read_said(trace_text::read(line))
}
