// A text line by line (house): words between blanks, `#` begins a comment, line ends LF or CRLF, a
// byte order mark at the beginning is passed over. A text comes in blocks of any size, and its
// lines may be of any length: what is kept of a line are its first six words, and of a word what it
// can be: a number, two hex digits, a name.
// Promises: every text is read, block by block as at once; what is kept of a line is what its words
// are.
// Specification: specs/Text.antt (lines and words), specs/Words.antt (what a word is, what is kept
// of a line), specs/Reading.antt (character by character); laws: the crate lines_laws.
#![tactic(auto)]

ghost use Rattle.std.specs.Prelude.{◌≡◌};
ghost use Rattle.lines.specs.Text.{beginning};
ghost use Rattle.lines.specs.Reading.{fresh, next_line};

mod keeping;
mod spelling;

use figures::NotFigure;
use keeping::closed;
use spelling::{letter_on, no_letters};

// What a word is as a name: another word, or one of those that a text has.
#[derive(Clone, Copy)]
pub enum Name {
    Other,
    Marker,
    Unreadable,
    Position,
    Raw,
    Signal,
    Warning,
    Annulled,
    Line,
    Route,
}

// What a word is: as a number up to 4,294,967,295, as two hex digits, as a name.
#[derive(Clone, Copy)]
pub struct Word {
    pub number: Result<u32, NotFigure>,
    pub byte: Option<u8>,
    pub name: Name,
}

// What is kept of a line: how many words it has, 7 for all above 6, and the first six of them.
#[derive(Clone, Copy)]
pub struct TextLine {
    pub words: [Word; 6],
    pub count: usize,
}

// A word so far: as a number, its first two characters, how many it has (3 for all above 2), and
// its letters as one number.
#[derive(Clone, Copy)]
pub struct Letters {
    pub number: Result<u32, NotFigure>,
    pub first: u8,
    pub second: u8,
    pub count: u8,
    pub letters: u64,
}

// A line so far: its words, the word that is being read, and whether its comment has begun.
#[derive(Clone, Copy)]
pub struct Reader {
    pub line: TextLine,
    pub word: Letters,
    pub comment: bool,
}

// What a block gives of a line: the line as far as it goes, whether it ends there, where the next
// one begins, and where reading goes on from.
#[derive(Clone, Copy)]
pub struct Got {
    pub line: TextLine,
    pub ends: bool,
    pub next: usize,
    pub reader: Reader,
}

// Before the first character of a line.
pub fn fresh() -> Reader
    ensures { result ≡ fresh }
{
    Reader {
        line: keeping::no_words(),
        word: no_letters(),
        comment: false,
    }
}

// Where a text begins: after a byte order mark, if it has one. Asked with the first block, of three
// bytes at least or the whole text.
pub fn begin(text: &[u8]) -> usize
    ensures { result ≡ beginning text.now }
{
    if text.len() < 3 {
        return 0;
    }
    if (text[0] == 0xEF) & (text[1] == 0xBB) & (text[2] == 0xBF) {
        return 3;
    }
    0
}

// Reads on in a block, from a place up to the end of the line or of the block.
pub fn next_line(reader: Reader, text: &[u8], from: usize) -> Got
    ensures { result ≡ next_line reader text.now from }
{
    let mut line = reader.line;
    let mut word = reader.word;
    let mut comment = reader.comment;
    for i in from..text.len() {
        let c = text[i];
        if c == 10 {
            return keeping::whole(line, word, i + 1);
        }
        if comment {
            continue;
        }
        if keeping::is_stop(c) {
            line = closed(line, word);
            word = no_letters();
            comment = c == 35;
            continue;
        }
        word = letter_on(word, c);
    }
    keeping::unfinished(line, word, comment, from.max(text.len()))
}
