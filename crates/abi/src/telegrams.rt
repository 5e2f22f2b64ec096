// Telegrams: three words read as one, and the first place of a stretch.
ghost use Rattle.std.specs.Prelude.{◌≡◌};
ghost use Rattle.telegram.specs.Telegram.{telegram};
ghost use Rattle.telegram.specs.Place.{find};
ghost use Rattle.abi.specs.Face.{returned, left, as_one, told, found_number, found_put};

use crate::number::as_one;
use telegram::{BadWord, NotFound};

// Three received words as one number, or -1 or -3.
pub fn atc2_read_telegram(x: u8, y: u8, z: u8) -> i32
    ensures { result ≡ returned as_one (told (telegram x y z)) }
{
    match telegram::read(x, y, z) {
        Ok(t) => as_one(t) as i32,
        Err(BadWord::NotCode(_, _)) => -1,
        Err(BadWord::Fifteen(_)) => -3,
    }
}

// 0, with the first place of the stretch and its telegram in `out`; -4, -5 or -6.
pub fn atc2_find(buf: &[u8], start: usize, len: usize, s: u8, t: u8, out: &mut [u64; 2]) -> i32
    ensures value { result ≡ returned found_number (find buf.now start len s t) }
    ensures out_after { out.new ≡ left found_put (find buf.now start len s t) out.old }
{
    match telegram::find(buf, start, len, s, t) {
        Ok(found) => {
            *out = [found.place as u64, as_one(found.telegram) as u64];
            0
        }
        Err(NotFound::NotSeven) => -4,
        Err(NotFound::Beyond) => -5,
        Err(NotFound::NoPlace) => -6,
    }
}
