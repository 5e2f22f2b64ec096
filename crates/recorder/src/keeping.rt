// What a record says beyond its odometer, and its eight bytes.
ghost use Rattle.std.specs.Prelude.{◌≡◌};
ghost use Rattle.words.specs.Answer.{gives};
ghost use Rattle.telegram.specs.Spelling.{spell};
ghost use Rattle.telegram.specs.Says.{says_spelt};
ghost use Rattle.recorder.specs.Record.{telegram_of, informed, blank, content_of, at_odometer};
ghost use Rattle.recorder.specs.Says.{says_kept, says_recorded};

use crate::RecordRefused;
use contact::Judged;
use telegram::{NotSpelt, Spelt, Telegram};

// Kind and words of a record.
#[derive(Clone, Copy)]
pub struct Kept {
    pub kind: u8,
    pub x: u8,
    pub y: u8,
    pub z: u8,
}

// The words that were received where this telegram was read.
fn words_of(telegram: Telegram) -> Result<Spelt, NotSpelt>
    ensures { says_spelt result ≡ spell (telegram_of telegram) }
{
    match telegram {
        Telegram::Figures(x, y, z) => telegram::spell(x, y as u16, z),
        Telegram::Number(m) => telegram::spell(12, m, 0),
    }
}

// A reading: kind 0, with its words.
fn as_information(telegram: Telegram) -> Result<Kept, RecordRefused>
    ensures { says_kept result ≡ informed (spell (telegram_of telegram)) }
{
    match words_of(telegram) {
        Ok(Spelt { x, y, z }) => Ok(Kept { kind: 0, x, y, z }),
        Err(NotSpelt::TooLarge) => Err(RecordRefused::TooLarge),
        Err(NotSpelt::Fifteen) => Err(RecordRefused::Fifteen),
    }
}

// A record with no words.
fn without_words(kind: u8) -> Result<Kept, RecordRefused>
    ensures { says_kept result ≡ gives (blank kind) }
{
    Ok(Kept {
        kind,
        x: 0,
        y: 0,
        z: 0,
    })
}

// What a judged contact is kept as.
pub fn content_of(judged: Judged) -> Result<Kept, RecordRefused>
    ensures { says_kept result ≡ content_of judged }
{
    match judged {
        Judged::Read {
            telegram,
            first: _,
            count: _,
        } => as_information(telegram),
        Judged::Marker => without_words(1),
        Judged::NotSeven => Err(RecordRefused::NotSeven),
        Judged::Beyond => Err(RecordRefused::Beyond),
        Judged::Differ => without_words(2),
        Judged::Neither => without_words(2),
    }
}

// The record at an odometer, or refusal 18.
pub fn made_at(odometer: u32, kept: Kept) -> Result<[u8; 8], RecordRefused>
    ensures { says_recorded result ≡ at_odometer odometer record { kind = kept.kind; x = kept.x; y = kept.y; z = kept.z } }
{
    if odometer > 4000000000 {
        return Err(RecordRefused::TooHigh);
    }
    let a = (odometer / 16777216) as u8;
    let b = (odometer / 65536 % 256) as u8;
    let c = (odometer / 256 % 256) as u8;
    let d = (odometer % 256) as u8;
    Ok([a, b, c, d, kept.kind, kept.x, kept.y, kept.z])
}
