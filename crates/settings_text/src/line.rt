// One line of the settings.
ghost use Rattle.std.specs.Prelude.{◌≡◌};
ghost use Rattle.settings_text.specs.Line.{word_at, figure_of, version, stated};

use figures::NotFigure;
use lines::{TextLine, Word};

// What a line states: nothing, a version, or it is unreadable.
// Stays as it is: a `Result<Option<..>, ..>` is no plainer, since a line has three plain ends.
#[derive(Clone, Copy)]
pub enum Stated {
    Nothing,
    Version { place: u32, gap: u32, s: u8, t: u8 },
    Unreadable,
}

// A number as a place or a gap; the largest of 32 bits stands for all above it.
fn figure_of(number: Result<u32, NotFigure>) -> Option<u32>
    ensures { result ≡ figure_of number }
{
    match number {
        Ok(n) => Some(n),
        Err(NotFigure::Above) => Some(4294967295),
        Err(NotFigure::Odd) => None,
    }
}

// Four words as a version.
fn version_of(place: Option<u32>, gap: Option<u32>, s: Option<u8>, t: Option<u8>) -> Stated
    ensures { result ≡ version place gap s t }
{
    let Some(place) = place else {
        return Stated::Unreadable;
    };
    let Some(gap) = gap else {
        return Stated::Unreadable;
    };
    let Some(s) = s else {
        return Stated::Unreadable;
    };
    let Some(t) = t else {
        return Stated::Unreadable;
    };
    Stated::Version { place, gap, s, t }
}

// What the first four words of a line state.
fn four(line: TextLine) -> Stated
    ensures { result ≡ version (figure_of (word_at line 0).number) (figure_of (word_at line 1).number) (word_at line 2).byte (word_at line 3).byte }
{
    let words: &[Word] = &line.words;
    let first = words[0];
    let second = words[1];
    let third = words[2];
    let fourth = words[3];
    let place = first.number;
    let gap = second.number;
    let s = third.byte;
    let t = fourth.byte;
    version_of(figure_of(place), figure_of(gap), s, t)
}

// What a line states.
pub fn read_line(line: TextLine) -> Stated
    ensures { result ≡ stated line }
{
    let count = line.count;
    match count {
        0 => Stated::Nothing,
        4 => four(line),
        _ => Stated::Unreadable,
    }
}
