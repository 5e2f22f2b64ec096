// The marker: zeroes, followed by at most 11 ones.
ghost use Rattle.std.specs.Prelude.{◌≡◌, ◌+◌, ◌*◌, ◌<◌, ◌≤◌, ◌^◌, length};
ghost use Rattle.words.specs.Answer.{gives, refuses, pick};
ghost use Rattle.telegram.specs.Stretch.{bit_at};
ghost use Rattle.contact.specs.Judge.{marker, ones_at_end, all_zero, is_marker};
ghost use Rattle.contact.specs.Says.{says_judged};

use crate::Judged;

// A contact that has not two places: a marker, or neither.
pub fn or_neither(buf: &[u8], start: usize, len: usize) -> Judged
    requires { (start + len ≤ 8 * length buf.now) × (start + len < 2 ^ 64) }
    ensures { says_judged result ≡ pick (is_marker buf.now start len) (gives marker) (refuses 8) }
{
    if is_marker(buf, start, len) {
        Judged::Marker
    } else {
        Judged::Neither
    }
}

// Whether the stretch is a marker's.
fn is_marker(buf: &[u8], start: usize, len: usize) -> bool
    requires { (start + len ≤ 8 * length buf.now) × (start + len < 2 ^ 64) }
    ensures { result ≡ is_marker buf.now start len }
{
    if len < 64 {
        return false;
    }
    let ones = ones_at_end(buf, start, len);
    if 11 < ones {
        return false;
    }
    all_zero(buf, start, len - ones)
}

// How many ones the stretch ends with.
fn ones_at_end(buf: &[u8], start: usize, len: usize) -> usize
    requires { (start + len ≤ 8 * length buf.now) × (start + len < 2 ^ 64) }
    ensures { (result ≡ ones_at_end buf.now start len) × (result ≤ len) }
{
    let mut ones: usize = 0;
    for n in (0..len).rev() {
        if bit(buf, start + n) == 0 {
            return ones;
        }
        ones += 1;
    }
    ones
}

// Whether all bits of the stretch are zeroes.
fn all_zero(buf: &[u8], start: usize, len: usize) -> bool
    requires { (start + len ≤ 8 * length buf.now) × (start + len < 2 ^ 64) }
    ensures { result ≡ all_zero buf.now start len }
{
    for n in (0..len).rev() {
        if bit(buf, start + n) == 1 {
            return false;
        }
    }
    true
}

// Bit i of the buffer.
fn bit(buf: &[u8], i: usize) -> u8
    requires { i < 8 * length buf.now }
    ensures { result ≡ bit_at buf.now i }
{
    (buf[i / 8] >> (7 - i % 8)) % 2
}
