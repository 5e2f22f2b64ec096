// The two codes: a word read, a figure written.
ghost use Rattle.std.specs.Prelude.{◌≡◌};
ghost use Rattle.words.specs.Why.{numbered};
ghost use Rattle.words.specs.Code.{read_short, write_short, read_long, write_long};
ghost use Rattle.abi.specs.Face.{returned, itself};

use words::{NotCode, TooLarge};

// The figure of a received short word, or -1.
pub fn atc2_read_short(word: u8) -> i32
    ensures { result ≡ returned itself (numbered (read_short word)) }
{
    match words::read_short(word) {
        Ok(x) => x as i32,
        Err(NotCode(_)) => -1,
    }
}

// The short word to send for a figure, or -2.
pub fn atc2_write_short(figure: u8) -> i32
    ensures { result ≡ returned itself (write_short figure) }
{
    match words::write_short(figure) {
        Ok(w) => w as i32,
        Err(TooLarge) => -2,
    }
}

// The figure of a received long word, or -1.
pub fn atc2_read_long(word: u16) -> i32
    ensures { result ≡ returned itself (numbered (read_long word)) }
{
    match words::read_long(word) {
        Ok(x) => x as i32,
        Err(_) => -1,
    }
}

// The long word to send for a figure, or -2.
pub fn atc2_write_long(figure: u16) -> i32
    ensures { result ≡ returned itself (write_long figure) }
{
    match words::write_long(figure) {
        Ok(w) => w as i32,
        Err(_) => -2,
    }
}
