// What stands after the place of a line.
ghost use Rattle.std.specs.Prelude.{◌≡◌};
ghost use Rattle.trace_text.specs.Said.{figure_of, named, numbered, figures, is_raw, raw, what_of};

use crate::What;
use figures::NotFigure;
use lines::{Name, TextLine, Word};

// A word as a figure, of which `most` is the largest that its type has.
fn figure_of(number: Result<u32, NotFigure>, most: u32) -> Option<u32>
    ensures { result ≡ figure_of number most }
{
    match number {
        Ok(n) => {
            if n > most {
                return Some(most);
            }
            Some(n)
        }
        Err(NotFigure::Above) => Some(most),
        Err(NotFigure::Odd) => None,
    }
}

// One word: a name.
fn named(name: Name) -> Option<What>
    ensures { result ≡ named name }
{
    match name {
        Name::Marker => Some(What::Marker),
        Name::Unreadable => Some(What::Unreadable),
        Name::Position => Some(What::Position),
        Name::Raw => None,
        Name::Signal => None,
        Name::Warning => None,
        Name::Annulled => None,
        Name::Line => None,
        Name::Route => None,
        Name::Other => None,
    }
}

// Two words: 12 and a number.
fn numbered(first: Result<u32, NotFigure>, second: Result<u32, NotFigure>) -> Option<What>
    ensures { result ≡ numbered first second }
{
    let Some(x) = figure_of(first, 255) else {
        return None;
    };
    let Some(y) = figure_of(second, 65535) else {
        return None;
    };
    if x != 12 {
        return None;
    }
    Some(What::Balise {
        x: 12,
        y: y as u16,
        z: 0,
    })
}

// Three words: three figures, of which the first is not 12.
fn figures(
    first: Result<u32, NotFigure>,
    second: Result<u32, NotFigure>,
    third: Result<u32, NotFigure>,
) -> Option<What>
    ensures { result ≡ figures first second third }
{
    let Some(x) = figure_of(first, 255) else {
        return None;
    };
    let Some(y) = figure_of(second, 65535) else {
        return None;
    };
    let Some(z) = figure_of(third, 255) else {
        return None;
    };
    if x == 12 {
        return None;
    }
    Some(What::Balise {
        x: x as u8,
        y: y as u16,
        z: z as u8,
    })
}

// Whether a name is `raw`.
fn is_raw(name: Name) -> bool
    ensures { result ≡ is_raw name }
{
    match name {
        Name::Raw => true,
        Name::Marker => false,
        Name::Unreadable => false,
        Name::Position => false,
        Name::Signal => false,
        Name::Warning => false,
        Name::Annulled => false,
        Name::Line => false,
        Name::Route => false,
        Name::Other => false,
    }
}

// Five words: `raw` and four bytes.
fn raw(name: Name, a: Option<u8>, b: Option<u8>, c: Option<u8>, d: Option<u8>) -> Option<What>
    ensures { result ≡ raw name a b c d }
{
    if !is_raw(name) {
        return None;
    }
    let Some(kind) = a else {
        return None;
    };
    let Some(x) = b else {
        return None;
    };
    let Some(y) = c else {
        return None;
    };
    let Some(z) = d else {
        return None;
    };
    Some(What::Raw { kind, x, y, z })
}

// What stands after the place.
pub fn what_of(line: TextLine) -> Option<What>
    ensures { result ≡ what_of line }
{
    let count = line.count;
    let words: &[Word] = &line.words;
    let first = words[1];
    let second = words[2];
    let third = words[3];
    let x = first.number;
    let y = second.number;
    let z = third.number;
    let name = first.name;
    match count {
        2 => named(name),
        3 => numbered(x, y),
        4 => figures(x, y, z),
        6 => raw_of(name, second, third, words[4], words[5]),
        _ => None,
    }
}

// `raw` with four words.
fn raw_of(name: Name, a: Word, b: Word, c: Word, d: Word) -> Option<What>
    ensures { result ≡ raw name a.byte b.byte c.byte d.byte }
{
    let kind = a.byte;
    let x = b.byte;
    let y = c.byte;
    let z = d.byte;
    raw(name, kind, x, y, z)
}
