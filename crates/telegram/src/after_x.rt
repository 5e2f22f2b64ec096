// The words of a telegram, each by itself, and those after X.
ghost use Rattle.std.specs.Prelude.{◌≡◌};
ghost use Rattle.words.specs.Answer.{gives, then};
ghost use Rattle.telegram.specs.Telegram.{named, short_word, long_word};
ghost use Rattle.telegram.specs.declared.Telegram.{Telegram};
ghost use Rattle.telegram.specs.declared.Word.{Word};
ghost use Rattle.telegram.specs.Says.{says_figure_read, says_telegram_read};

use crate::{BadWord, Telegram, Word};
use words::NotCode;

// The figure that a short word of a telegram reads; one that reads 15 is bad too.
pub fn figure(word: Word, w: u8) -> Result<u8, BadWord>
    ensures { says_figure_read result ≡ named word (short_word w) }
{
    match words::read_short(w) {
        Err(NotCode(p)) => Err(BadWord::NotCode(word, p)),
        Ok(x) => {
            if x == 15 {
                Err(BadWord::Fifteen(word))
            } else {
                Ok(x)
            }
        }
    }
}

// Y and Z as one long word, after an X that reads 12.
pub fn number(y: u8, z: u8) -> Result<Telegram, BadWord>
    ensures { says_telegram_read result ≡ then (named Word.YZ (long_word y z)) (λ m. gives (Telegram.Number m)) }
{
    match words::read_long(y as u16 * 256 + z as u16) {
        Err(NotCode(p)) => Err(BadWord::NotCode(Word::YZ, p)),
        Ok(m) => Ok(Telegram::Number(m)),
    }
}

// Y and Z as short words, after an X that reads the figure a.
pub fn figures(a: u8, y: u8, z: u8) -> Result<Telegram, BadWord>
    ensures { says_telegram_read result ≡ then (named Word.Y (short_word y)) (λ b. then (named Word.Z (short_word z)) (λ c. gives (Telegram.Figures a b c))) }
{
    let b = figure(Word::Y, y)?;
    let c = figure(Word::Z, z)?;
    Ok(Telegram::Figures(a, b, c))
}
