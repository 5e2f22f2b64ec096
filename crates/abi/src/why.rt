// Why a word, or three, are refused, as one number.
ghost use Rattle.std.specs.Prelude.{◌≡◌, ◌<◌, ◌≤◌, pos};
ghost use Rattle.words.specs.Answer.{refuses};
ghost use Rattle.words.specs.Why.{are};
ghost use Rattle.words.specs.Says.{says_read};
ghost use Rattle.telegram.specs.Telegram.{telegram};
ghost use Rattle.telegram.specs.Says.{says_bad, says_telegram_read};
ghost use Rattle.abi.specs.Face.{letter_number, ones_number, why_number, word_read, word_number};

use telegram::{BadWord, Telegram, Word};
use words::{NotCode, Parity};

// The number of a word's letter.
fn letter(word: Word) -> u32
    ensures { (result ≡ letter_number word) × (result ≤ 4) }
{
    match word {
        Word::X => 1,
        Word::Y => 2,
        Word::Z => 3,
        Word::YZ => 4,
    }
}

// The number of a parity.
fn ones(parity: Parity) -> u32
    ensures { (result ≡ ones_number (are parity)) × (result ≤ 2) }
{
    match parity {
        Parity::Odd => 1,
        Parity::Even => 2,
    }
}

// The number of the refusal + 16 * the bad word's letter + 256 * its parity.
fn of_bad(bad: BadWord) -> u32
    ensures { (result ≡ why_number (refuses (says_bad bad))) × (result < 1024) }
{
    match bad {
        BadWord::NotCode(word, parity) => 1 + 16 * letter(word) + 256 * ones(parity),
        BadWord::Fifteen(word) => 3 + 16 * letter(word),
    }
}

// 0 for a telegram, else the number of its first bad word.
fn number(read: Result<Telegram, BadWord>) -> u32
    ensures { (result ≡ why_number (says_telegram_read read)) × (result < 1024) }
{
    match read {
        Ok(_) => 0,
        Err(bad) => of_bad(bad),
    }
}

// 0 if the three received words read, else why not.
pub fn atc2_why_telegram(x: u8, y: u8, z: u8) -> i32
    ensures { result ≡ pos (why_number (telegram x y z)) }
{
    number(telegram::read(x, y, z)) as i32
}

// 0 for a figure, else the number of the refusal + 256 * the word's parity.
fn of_short(read: Result<u8, NotCode>) -> u32
    ensures { (result ≡ word_number (says_read read)) × (result < 1024) }
{
    match read {
        Ok(_) => 0,
        Err(NotCode(parity)) => 1 + 256 * ones(parity),
    }
}

fn of_long(read: Result<u16, NotCode>) -> u32
    ensures { (result ≡ word_number (says_read read)) × (result < 1024) }
{
    match read {
        Ok(_) => 0,
        Err(NotCode(p)) => 1 + 256 * ones(p),
    }
}

// 0 if a received word reads, the long one or, where `wide` is 0, the short one in its low byte;
// else why not.
pub fn atc2_why_word(word: u16, wide: u8) -> i32
    ensures { result ≡ pos (word_number (word_read word wide)) }
{
    if wide == 0 {
        return of_short(words::read_short((word % 256) as u8)) as i32;
    }
    of_long(words::read_long(word)) as i32
}
