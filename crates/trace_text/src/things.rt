// What a record says.
ghost use Rattle.std.specs.Prelude.{◌≡◌};
ghost use Rattle.telegram.specs.Telegram.{telegram};
ghost use Rattle.trace_text.specs.Thing.{place_of, balise_of, informed, blank, thing_of};

use crate::What;
use telegram::{BadWord, Telegram};

// The place of four bytes, the highest first.
pub fn place_of(a: u8, b: u8, c: u8, d: u8) -> u32
    ensures { result ≡ place_of a b c d }
{
    a as u32 * 16777216 + b as u32 * 65536 + c as u32 * 256 + d as u32
}

// The balise that sends a telegram.
fn balise_of(telegram: Telegram) -> What
    ensures { result ≡ balise_of telegram }
{
    match telegram {
        Telegram::Figures(x, y, z) => What::Balise { x, y: y as u16, z },
        Telegram::Number(m) => What::Balise { x: 12, y: m, z: 0 },
    }
}

// Information: the balise, where the words read as a telegram.
fn information(x: u8, y: u8, z: u8) -> What
    ensures { result ≡ informed x y z (telegram x y z) }
{
    match telegram::read(x, y, z) {
        Ok(t) => balise_of(t),
        Err(BadWord::NotCode(_, _)) => What::Raw { kind: 0, x, y, z },
        Err(BadWord::Fifteen(_)) => What::Raw { kind: 0, x, y, z },
    }
}

// A record of another kind, with no words.
fn blank(kind: u8) -> What
    ensures { result ≡ blank kind }
{
    match kind {
        1 => What::Marker,
        2 => What::Unreadable,
        3 => What::Position,
        _ => What::Raw {
            kind,
            x: 0,
            y: 0,
            z: 0,
        },
    }
}

// What a kind and three words say.
pub fn thing_of(kind: u8, x: u8, y: u8, z: u8) -> What
    ensures { result ≡ thing_of kind x y z }
{
    if kind == 0 {
        return information(x, y, z);
    }
    if (x == 0) & (y == 0) & (z == 0) {
        return blank(kind);
    }
    What::Raw { kind, x, y, z }
}
