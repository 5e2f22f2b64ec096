// Digits, one after the other.
ghost use Rattle.std.specs.Prelude.{◌≡◌, ◌<◌, ◌≤◌, true, leb, Ok, Err};
ghost use Rattle.words.specs.Answer.{pick};
ghost use Rattle.figures.specs.Figures.{all_digits_meant, continued, hex_digit};
ghost use Rattle.figures.specs.declared.NotFigure.{NotFigure};

use crate::NotFigure;

// Whether all characters are decimal digits.
pub fn all_digits(text: &[u8]) -> bool
    ensures { result ≡ all_digits_meant text.now }
{
    for &c in text {
        if c < 48 {
            return false;
        }
        if c > 57 {
            return false;
        }
    }
    true
}

// The number that the digits make, or that it is above `most`.
pub fn up_to(text: &[u8], most: u64) -> Result<u64, NotFigure>
    requires { all_digits_meant text.now ≡ true }
    ensures { result ≡ pick (leb (continued 0 text.now) most) (Ok (continued 0 text.now)) (Err NotFigure.Above) }
{
    let mut sum: u64 = 0;
    for &c in text {
        let digit = (c - 48) as u64;
        if digit > most {
            return Err(NotFigure::Above);
        }
        if sum > (most - digit) / 10 {
            return Err(NotFigure::Above);
        }
        sum = sum * 10 + digit;
    }
    Ok(sum)
}

// The value of a hex digit, or 16 for any other character.
pub fn hex_digit(c: u8) -> u8
    ensures { result ≡ hex_digit c }
{
    match c {
        48..=57 => c - 48,
        97..=102 => c - 87,
        65..=70 => c - 55,
        _ => 16,
    }
}
