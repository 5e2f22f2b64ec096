// The words to send for a telegram.
ghost use Rattle.std.specs.Prelude.{◌≡◌};
ghost use Rattle.words.specs.Code.{write_short};
ghost use Rattle.words.specs.Says.{says_written};
ghost use Rattle.telegram.specs.declared.Telegram.{Telegram};
ghost use Rattle.telegram.specs.declared.spelling.NotSpelt.{NotSpelt};
ghost use Rattle.telegram.specs.Spelling.{asked, spell};
ghost use Rattle.telegram.specs.Says.{says_spelt};

use words::TooLarge;

// The short word for 12, which says that a number follows.
const TWELVE: u8 = 0xC3;

// The three words to send.
#[derive(Clone, Copy, PartialEq, Eq)]
pub struct Spelt {
    pub x: u8,
    pub y: u8,
    pub z: u8,
}

// Why there are no words to send: refusal 2 or 3.
#[derive(Clone, Copy, PartialEq, Eq)]
pub enum NotSpelt {
    TooLarge,
    Fifteen,
}

impl From<TooLarge> for NotSpelt {
    ghost from_gives = { λ _ e. e ≡ NotSpelt.TooLarge };

    fn from(_refusal: TooLarge) -> NotSpelt {
        NotSpelt::TooLarge
    }
}

// The short word for a figure, or refusal 2.
fn short(figure: u16) -> Result<u8, TooLarge>
    ensures { says_written result ≡ write_short figure }
{
    if figure > 255 {
        return Err(TooLarge);
    }
    words::write_short(figure as u8)
}

// The words of three figures.
fn figures(x: u8, y: u16, z: u8) -> Result<Spelt, NotSpelt>
    ensures { says_spelt result ≡ spell (Telegram.Figures x y z) }
{
    let a = words::write_short(x)?;
    let b = short(y)?;
    let c = words::write_short(z)?;
    if (x == 15) | (y == 15) | (z == 15) {
        return Err(NotSpelt::Fifteen);
    }
    Ok(Spelt { x: a, y: b, z: c })
}

// The words of a number.
fn number(m: u16) -> Result<Spelt, NotSpelt>
    ensures { says_spelt result ≡ spell (Telegram.Number m) }
{
    let w = words::write_long(m)?;
    Ok(Spelt {
        x: TWELVE,
        y: (w / 256) as u8,
        z: (w % 256) as u8,
    })
}

// The three words that are sent for the figures x, y, z, or for the number y after a 12; or refusal
// 2, then 3.
pub fn spell(x: u8, y: u16, z: u8) -> Result<Spelt, NotSpelt>
    ensures { says_spelt result ≡ spell (asked x y z) }
{
    if x == 12 { number(y) } else { figures(x, y, z) }
}
