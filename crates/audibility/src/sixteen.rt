// The zeroes among sixteen bits in a row of a balise's line.
ghost use Rattle.std.specs.Prelude.{◌≡◌, ◌+◌, ◌*◌, ◌<◌, ◌≤◌, ltb, length};
ghost use Rattle.telegram.specs.Stretch.{bit_at};
ghost use Rattle.contact_laws.specs.Zeroes.{zeroes_in, fewest};
ghost use Rattle.audibility.specs.Sound.{some, sound_with};
ghost use Rattle.audibility.specs.Says.{says_sound};

use crate::Sound;

// Bit i of the buffer.
fn bit(buf: &[u8], i: usize) -> u8
    requires { i < 8 * length buf.now }
    ensures { result ≡ bit_at buf.now i }
{
    (buf[i / 8] >> (7 - i % 8)) % 2
}

// How many of the sixteen bits from bit i on are zeroes.
fn zeroes_from(buf: &[u8], i: usize) -> u8
    requires { (i + 16 ≤ 8 * length buf.now) × (i < 64) }
    ensures { result ≡ zeroes_in buf.now i 16 }
{
    let mut zeroes: u8 = 0;
    for n in 0..16 {
        zeroes += 1 - bit(buf, i + n);
    }
    zeroes
}

// Whether some sixteen bits that begin with one of the first 64 have four zeroes or fewer.
fn some_few(buf: &[u8]) -> bool
    requires { 80 ≤ 8 * length buf.now }
    ensures { result ≡ some (λ j. ltb (zeroes_in buf.now j 16) fewest) 64 }
{
    for n in (0..64).rev() {
        if zeroes_from(buf, n) < 5 {
            return true;
        }
    }
    false
}

// The balise with these words: a good pair first. What it repeats, and its first sixteen bits once
// more, are ten bytes.
pub fn sound(x: u8, y: u8, z: u8, s: u8, t: u8) -> Sound
    ensures { says_sound result ≡ sound_with s t record { x = x; y = y; z = z } }
{
    let Ok(()) = telegram::good_pair(s, t) else {
        return Sound::NotSeven;
    };
    let line = [s, x, y, z, t, x, y, z, s, x];
    if some_few(&line) {
        Sound::Broken
    } else {
        Sound::Audible
    }
}
