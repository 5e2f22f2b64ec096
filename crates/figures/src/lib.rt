// Figures from a command line: numbers in decimal, words as two hex digits; and the fields of a
// line, for the programs that compare tables.
// Promises: every text is answered; an odd one or one that is too large is told apart, and nothing
// is wrapped round; a field that a text has not is empty.
// Specification: specs/Figures.antt, specs/Fields.antt.
#![tactic(auto)]

ghost use Rattle.std.specs.Prelude.{◌≡◌};
ghost use Rattle.figures.specs.Figures.{decimal, hex};

mod digits;
mod fields;

pub use fields::{field, has, more, place_of};

// Why a text is no number that was asked for: it is above the largest asked for, or no number.
#[derive(Clone, Copy, PartialEq, Eq)]
pub enum NotFigure {
    Above,
    Odd,
}

// The number that a text of decimal digits is, at least one of them, or that it is above `most`,
// the largest asked for, however long it is; any other text is none.
pub fn decimal(text: &[u8], most: u64) -> Result<u64, NotFigure>
    ensures { result ≡ decimal text.now most }
{
    if text.len() == 0 {
        return Err(NotFigure::Odd);
    }
    if !digits::all_digits(text) {
        return Err(NotFigure::Odd);
    }
    digits::up_to(text, most)
}

// The byte that a text of two hex digits of either case is, the first its high half; any other text
// is none.
pub fn hex(text: &[u8]) -> Option<u8>
    ensures { result ≡ hex text.now }
{
    if text.len() != 2 {
        return None;
    }
    let high = digits::hex_digit(text[0]);
    let low = digits::hex_digit(text[1]);
    if high >= 16 {
        return None;
    }
    if low >= 16 {
        return None;
    }
    Some(high * 16 + low)
}
