// The commands, a line each without its newline.
ghost use Rattle.std.specs.Prelude.{◌≡◌};
ghost use Rattle.viewer_text.specs.Commands.{by, alone, followed, command};

use crate::finding::small;
use crate::trimming;
use figures::NotFigure;

// What a line asks for: so many records forward or back, to where so many lie before, to a place,
// to the next line of the ride that has a word (which stands in the line, from one place up to
// another; one without a letter means the word before), the same again, the end, or nothing that is
// known.
#[derive(Clone, Copy)]
pub enum Command {
    Forward(u64),
    Back(u64),
    Go(u64),
    Place(u64),
    Find { from: usize, to: usize },
    Again,
    Quit,
    Unknown,
}

// A letter with a number after it.
fn by(letter: u8, n: u64) -> Command
    ensures { result ≡ by letter n }
{
    if letter == b'f' {
        return Command::Forward(n);
    }
    if letter == b'b' {
        return Command::Back(n);
    }
    if letter == b'g' {
        if n == 0 {
            return Command::Unknown;
        }
        return Command::Go(n - 1);
    }
    if letter == b'p' {
        return Command::Place(n);
    }
    Command::Unknown
}

// A letter alone.
fn alone(letter: u8) -> Command
    ensures { result ≡ alone letter }
{
    if letter == b'f' {
        return Command::Forward(1);
    }
    if letter == b'b' {
        return Command::Back(1);
    }
    if letter == b'q' {
        return Command::Quit;
    }
    Command::Unknown
}

// A letter and what stands after it: a blank or more, and a number.
fn followed(letter: u8, rest: &[u8]) -> Command
    ensures { result ≡ followed letter rest.now }
{
    let blanks = trimming::begin(rest);
    if blanks == 0 {
        return Command::Unknown;
    }
    match figures::decimal(&rest[blanks..], u64::MAX) {
        Ok(n) => by(letter, n),
        Err(NotFigure::Above) => by(letter, u64::MAX),
        Err(NotFigure::Odd) => Command::Unknown,
    }
}

// What a line asks for, whatever blanks are around it and whether its letter is a capital: a letter
// alone, or a letter, blanks and a number (`g N`: to where N - 1 records lie before); a slash and a
// word, or a slash alone; a number that is too large is the largest; nothing asks for the same
// again; anything else is unknown.
pub fn read(line: &[u8]) -> Command
    ensures { result ≡ command line.now }
{
    let from = trimming::begin(line);
    let to = trimming::end(line);
    if to <= from {
        return Command::Again;
    }
    let letter = small(line[from]);
    if letter == b'/' {
        return Command::Find { from: from + 1, to };
    }
    if to - from == 1 {
        return alone(letter);
    }
    followed(letter, &line[from + 1..to])
}
