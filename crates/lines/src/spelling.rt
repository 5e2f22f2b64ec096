// A word, character by character.
ghost use Rattle.std.specs.Prelude.{◌≡◌};
ghost use Rattle.lines.specs.Reading.{digit_on, number_on, letters_on, no_letters, letter_on, named, byte_of, done};

use crate::{Letters, Name, Word};
use figures::NotFigure;

// No character yet.
pub fn no_letters() -> Letters
    ensures { result ≡ no_letters }
{
    Letters {
        number: Ok(0),
        first: 0,
        second: 0,
        count: 0,
        letters: 0,
    }
}

// A number with one digit more.
fn digit_on(n: u32, digit: u8) -> Result<u32, NotFigure>
    ensures { result ≡ digit_on n digit }
{
    if n > (u32::MAX - digit as u32) / 10 {
        return Err(NotFigure::Above);
    }
    Ok(n * 10 + digit as u32)
}

// A number with one character more.
fn number_on(number: Result<u32, NotFigure>, c: u8) -> Result<u32, NotFigure>
    ensures { result ≡ number_on number c }
{
    if c < 48 {
        return Err(NotFigure::Odd);
    }
    if c > 57 {
        return Err(NotFigure::Odd);
    }
    match number {
        Ok(n) => digit_on(n, c - 48),
        Err(e) => Err(e),
    }
}

// The letters so far with one character more, as a number of which each letter is a digit, 1 to 26;
// 32^11 for what no name has.
fn letters_on(letters: u64, c: u8) -> u64
    ensures { result ≡ letters_on letters c }
{
    if c < 97 {
        return 36028797018963968;
    }
    if c > 122 {
        return 36028797018963968;
    }
    if letters >= 1125899906842624 {
        return 36028797018963968;
    }
    letters * 32 + (c - 96) as u64
}

// A word with one character more.
pub fn letter_on(word: Letters, c: u8) -> Letters
    ensures { result ≡ letter_on word c }
{
    let before = word.number;
    let number = number_on(before, c);
    let letters = letters_on(word.letters, c);
    let count = word.count;
    match count {
        0 => Letters {
            number,
            first: c,
            second: word.second,
            count: 1,
            letters,
        },
        1 => Letters {
            number,
            first: word.first,
            second: c,
            count: 2,
            letters,
        },
        _ => Letters {
            number,
            first: word.first,
            second: word.second,
            count: 3,
            letters,
        },
    }
}

// The name that letters make.
fn named(letters: u64) -> Name
    ensures { result ≡ named letters }
{
    match letters {
        437857458 => Name::Marker,
        754888858438021 => Name::Unreadable,
        566509577710 => Name::Position,
        18487 => Name::Raw,
        647215148 => Name::Signal,
        24748959175 => Name::Warning,
        49884311716 => Name::Annulled,
        402885 => Name::Line,
        19388037 => Name::Route,
        _ => Name::Other,
    }
}

// The byte that two characters are, of a word with so many.
fn byte_of(first: u8, second: u8, count: u8) -> Option<u8>
    ensures { result ≡ byte_of first second count }
{
    if count != 2 {
        return None;
    }
    figures::hex(&[first, second])
}

// What a word is, after its last character.
pub fn done(word: Letters) -> Word
    ensures { result ≡ done word }
{
    let number = word.number;
    let byte = byte_of(word.first, word.second, word.count);
    let name = named(word.letters);
    Word { number, byte, name }
}
