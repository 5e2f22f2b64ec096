// Forty bits as a telegram: two sync words outside, the words X, Y and Z between them.
ghost use Rattle.std.specs.Prelude.{◌≡◌, ◌-◌, ◌*◌, ◌/◌, ◌%◌, ◌^◌, ◌<◌, ◌&&◌};
ghost use Rattle.telegram.specs.Telegram.{telegram};
ghost use Rattle.telegram.specs.Place.{are_syncs, accepted};
ghost use Rattle.telegram.specs.Says.{says_telegram_read};

use crate::{BadWord, Telegram};

// The bytes of forty bits, but for the last: what a one in the last bit of each is worth.
const FIRST: u64 = 4294967296;

const SECOND: u64 = 16777216;

const THIRD: u64 = 65536;

const FOURTH: u64 = 256;

// Whether the forty bits v are a telegram between s and t, in either order: the sync words are
// looked at first.
pub fn is_place(v: u64, s: u8, t: u8) -> bool
    requires { v < 2 ^ 40 }
    ensures { result ≡ are_syncs s t (v / 2 ^ 32) (v % 256) && accepted (telegram (v / 2 ^ 24 % 256) (v / 2 ^ 16 % 256) (v / 2 ^ 8 % 256)) }
{
    if !outer_are_syncs(v, s, t) {
        return false;
    }
    words_of(v).is_ok()
}

// Whether the outer bytes are s and t, in either order.
pub fn outer_are_syncs(v: u64, s: u8, t: u8) -> bool
    requires { v < 2 ^ 40 }
    ensures { result ≡ are_syncs s t (v / 2 ^ 32) (v % 256) }
{
    let a = v / FIRST;
    let z = v % 256;
    let s = s as u64;
    let t = t as u64;
    ((a == s) & (z == t)) | ((a == t) & (z == s))
}

// What the three words between them read.
pub fn words_of(v: u64) -> Result<Telegram, BadWord>
    ensures { says_telegram_read result ≡ telegram (v / 2 ^ 24 % 256) (v / 2 ^ 16 % 256) (v / 2 ^ 8 % 256) }
{
    crate::read(
        (v / SECOND % 256) as u8,
        (v / THIRD % 256) as u8,
        (v / FOURTH % 256) as u8,
    )
}

// The word k of the three: X is 0, Y is 1, Z is 2.
pub fn word(v: u64, k: u64) -> u64
    requires { k < 3 }
    ensures { result ≡ v / 2 ^ (24 - 8 * k) % 256 }
{
    (v >> (24 - 8 * k)) % 256
}
