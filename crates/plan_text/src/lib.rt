// The entries of a plan as lines of text (house): `1000 signal`, `4000 warning`, `annulled`, `line`
// or `route`.
// Promises: every line is answered: an entry, nothing, or unreadable; an entry is its eight bytes.
// Specification: specs/Entry.antt.
#![tactic(auto)]

ghost use Rattle.std.specs.Prelude.{◌≡◌};
ghost use Rattle.trace_text.specs.Record.{bytes_of};
ghost use Rattle.plan_text.specs.Entry.{kind_of, entered, at_place, entry};
ghost use Rattle.trace_text.specs.Said.{nth};

use lines::{Name, TextLine, Word};
use trace_text::What;

// What a line says: nothing, an entry at a place in dm, or it is unreadable.
// Stays as it is: a `Result<Option<..>, ..>` is no plainer, since a line has three plain ends.
#[derive(Clone, Copy)]
pub enum Entry {
    Nothing,
    At { place: u32, kind: u8 },
    Unreadable,
}

// The kind that a name is, 0 to 4, or none.
fn kind_of(name: Name) -> Option<u8>
    ensures { result ≡ kind_of name }
{
    match name {
        Name::Signal => Some(0),
        Name::Warning => Some(1),
        Name::Annulled => Some(2),
        Name::Line => Some(3),
        Name::Route => Some(4),
        Name::Other => None,
        Name::Marker => None,
        Name::Unreadable => None,
        Name::Position => None,
        Name::Raw => None,
    }
}

// An entry of a kind, at its place.
fn entered(place: u32, kind: Option<u8>) -> Entry
    ensures { result ≡ entered place kind }
{
    match kind {
        Some(kind) => Entry::At { place, kind },
        None => Entry::Unreadable,
    }
}

// What two words say: a place and a kind.
fn two(line: TextLine) -> Entry
    ensures { result ≡ at_place (nth line 0).number (kind_of (nth line 1).name) }
{
    let words: &[Word] = &line.words;
    let first = words[0];
    let second = words[1];
    match first.number {
        Ok(place) => entered(place, kind_of(second.name)),
        Err(_) => Entry::Unreadable,
    }
}

// What a line says.
pub fn read(line: TextLine) -> Entry
    ensures { result ≡ entry line }
{
    let count = line.count;
    match count {
        0 => Entry::Nothing,
        2 => two(line),
        _ => Entry::Unreadable,
    }
}

// The eight bytes of an entry.
pub fn entry_of(place: u32, kind: u8) -> [u8; 8]
    ensures { result ≡ bytes_of place kind 0 0 0 }
{
    let made = trace_text::record_of(
        place,
        What::Raw {
            kind,
            x: 0,
            y: 0,
            z: 0,
        },
    );
    made.bytes
}
