// Up to 57 offsets at once: the outer bytes of a place stand 32 bits apart and differ as S and S*
// do, so where no two bytes that far apart differ so, no place begins.
ghost use Rattle.std.specs.Prelude.{◌≡◌, false, ℕ, ◌+◌, ◌-◌, ◌*◌, ◌/◌, ◌%◌, ◌<◌, ◌≤◌, ◌^◌};
ghost use Rattle.telegram.specs.Stretch.{bits_at};
ghost use Rattle.telegram.specs.Place.{are_syncs};

use crate::bits::eight_bytes;

// Marks for the 57 - p % 8 offsets from p on, of which bit 56 - p % 8 is the first: one without a
// mark is no place.
pub fn marks(buf: &[u8], p: usize, s: u8, t: u8) -> u64
    ensures { (result ≤ (2 ^ 64 - 1) / 2 ^ (7 + p % 8)) × ((j : ℕ) → j < 57 - p % 8 → result / 2 ^ (56 - p % 8 - j) % 2 ≡ 0 → are_syncs s t (bits_at buf.now (p + j) 8) (bits_at buf.now (p + j + 32) 8) ≡ false) }
{
    let i = p / 8;
    let differ = eight_bytes(buf, i + 4) ^ eight_bytes(buf, i);
    where_stands(s as u64 ^ t as u64, differ, u64::MAX >> (7 + p % 8))
}

// How many offsets stand before the first mark.
pub fn before_first(h: u64, o: usize) -> usize
    requires { (o < 8) × (h ≤ (2 ^ 64 - 1) / 2 ^ (7 + o)) }
    ensures { (result ≤ 57 - o) × ((j : ℕ) → j < result → h / 2 ^ (56 - o - j) % 2 ≡ 0) }
{
    u64::leading_zeros(h) as usize - (7 + o)
}

// The offset n after p, or `stop` if that comes first.
pub fn up_to(p: usize, n: usize, stop: usize) -> usize
    requires { p ≤ stop }
    ensures { result ≡ stop - (stop - (p + n)) }
{
    if stop - p <= n {
        return stop;
    }
    p + n
}

// Of the bits of m those from which upwards the byte d stands in x.
fn where_stands(d: u64, x: u64, m: u64) -> u64
    ensures { (result ≤ m) × ((k : ℕ) → k < 64 → m / 2 ^ k % 2 ≡ 1 → x / 2 ^ k % 256 ≡ d → result / 2 ^ k % 2 ≡ 1) }
{
    let mut h = m;
    for j in 0..8u64 {
        h &= ((x >> j) ^ ((1 - (d >> j) % 2) * u64::MAX));
    }
    h
}
