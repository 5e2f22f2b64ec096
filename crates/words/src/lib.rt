// The two codes of document 01: M(8,4) for a short word, M(16,11) for a long one.
// Promises: a word reads as its figure or is refused and says whether its ones are odd or even,
// nothing is mended; a figure is written as its one word or refused.
// Specification: specs/Plain.antt (the plain code H), specs/Code.antt (the sent code M),
// specs/Why.antt (refusals of words), specs/Says.antt (the answers); specs/Limits.antt is for those
// above: the largest number of 64 bits.
#![tactic(auto)]

ghost use Rattle.std.specs.Prelude.{◌≡◌};
ghost use Rattle.words.specs.Code.{read_short, write_short, read_long, write_long};
ghost use Rattle.words.specs.Says.{says_read, says_written};

mod reading;
mod writing;

// Whether a word's ones are odd or even in number.
#[derive(Clone, Copy, PartialEq, Eq)]
pub enum Parity {
    Odd,
    Even,
}

// The refusal of a word that is no code word, with whether its ones are odd or even in number.
#[derive(Clone, Copy, PartialEq, Eq)]
pub struct NotCode(pub Parity);

// The refusal of a figure above the largest that the code writes.
#[derive(Clone, Copy, PartialEq, Eq)]
pub struct TooLarge;

// The figure of a received byte if every check of the plain code is even; else refusal 1, with
// whether its ones are odd or even in number.
// Stays as it is: the new form is no plainer, as a trait would hold the test and types of each.
pub fn read_short(word: u8) -> Result<u8, NotCode>
    ensures { says_read result ≡ read_short word }
{
    if reading::is_short(word) {
        Ok(word / 16)
    } else {
        Err(NotCode(reading::parity(word as u32)))
    }
}

// The one short word to send for a figure 0 to 15; a larger one is refused with 2.
pub fn write_short(figure: u8) -> Result<u8, TooLarge>
    ensures { says_written result ≡ write_short figure }
{
    if figure <= 15 {
        let w = writing::sent(figure as u32, 8);
        Ok((w % 256) as u8)
    } else {
        Err(TooLarge)
    }
}

// The figure of sixteen received bits if every check is even; else refusal 1, with whether their
// ones are odd or even in number.
pub fn read_long(word: u16) -> Result<u16, NotCode>
    ensures { says_read result ≡ read_long word }
{
    let w = word as u32;
    if reading::is_code(w) {
        let x = reading::figure(w);
        Ok((x % 65536) as u16)
    } else {
        Err(NotCode(reading::parity(w)))
    }
}

// The one long word to send for a figure 0 to 2,047; a larger one is refused with 2.
pub fn write_long(figure: u16) -> Result<u16, TooLarge>
    ensures { says_written result ≡ write_long figure }
{
    if figure <= 2047 {
        let w = writing::sent(figure as u32, 16);
        Ok((w % 65536) as u16)
    } else {
        Err(TooLarge)
    }
}
