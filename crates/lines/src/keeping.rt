// What is kept of a line.
ghost use Rattle.std.specs.Prelude.{◌≡◌, ◌<◌};
ghost use Rattle.lines.specs.Words.{no_words, kept};
ghost use Rattle.lines.specs.Reading.{stops, closed, unfinished, whole};

use crate::spelling::done;
use crate::{Got, Letters, Name, Reader, TextLine, Word};
use figures::NotFigure;

// A place of a line that has no word.
const NO_WORD: Word = Word {
    number: Err(NotFigure::Odd),
    byte: Some(0),
    name: Name::Other,
};

// A line without a word.
pub fn no_words() -> TextLine
    ensures { result ≡ no_words }
{
    TextLine {
        words: [NO_WORD; 6],
        count: 0,
    }
}

// A line with one word more; of a seventh, and of all after it, only that there is one.
fn kept(line: TextLine, word: Word) -> TextLine
    ensures { result ≡ kept line word }
{
    let count = line.count;
    let mut words = line.words;
    if count < 6 {
        words[count] = word;
        return TextLine {
            words,
            count: count + 1,
        };
    }
    TextLine { words, count: 7 }
}

// Whether a character ends a word: a blank, or the `#` of a comment.
pub fn is_stop(c: u8) -> bool
    ensures { result ≡ stops c }
{
    (c == 32) | (c == 9) | (c == 13) | (c == 35)
}

// A line after the word that was being read, if there was one.
pub fn closed(line: TextLine, word: Letters) -> TextLine
    ensures { result ≡ closed line word }
{
    if word.count == 0 {
        return line;
    }
    kept(line, done(word))
}

// A line that ends before this place.
pub fn whole(line: TextLine, word: Letters, next: usize) -> Got
    ensures { result ≡ whole line word next }
{
    Got {
        line: closed(line, word),
        ends: true,
        next,
        reader: crate::fresh(),
    }
}

// A line that goes on after this place.
pub fn unfinished(line: TextLine, word: Letters, comment: bool, next: usize) -> Got
    ensures { result ≡ unfinished line word comment next }
{
    Got {
        line: closed(line, word),
        ends: false,
        next,
        reader: Reader {
            line,
            word,
            comment,
        },
    }
}
