// The bits of a lent buffer, highest bit of a byte first, eight bytes at a time. Beyond the
// buffer's end they count as zeroes.
ghost use Rattle.std.specs.Prelude.{◌≡◌, ◌+◌, ◌*◌, ◌<◌, ◌≤◌, ◌^◌, leb, length, get_or};
ghost use Rattle.telegram.specs.Stretch.{bits_at};

// The 64 bits of the buffer from byte i on, zeroes where it has none.
pub fn eight_bytes(buf: &[u8], i: usize) -> u64
    ensures { result ≡ bits_at buf.now (8 * i) 64 }
{
    if has(buf, i, 8) {
        whole(buf, i)
    } else {
        filled(buf, i)
    }
}

// The forty bits from bit p on.
pub fn forty(buf: &[u8], p: usize) -> u64
    ensures { result ≡ bits_at buf.now p 40 }
{
    (eight_bytes(buf, p / 8) >> (24 - p % 8)) % 1099511627776
}

// Whether the buffer has n bytes from byte i on.
fn has(buf: &[u8], i: usize, n: usize) -> bool
    ensures { result ≡ leb (i + n) (length buf.now) }
{
    if buf.len() < n {
        return false;
    }
    if buf.len() - n < i {
        return false;
    }
    true
}

// The 64 bits from byte i on, all of them in the buffer.
fn whole(buf: &[u8], i: usize) -> u64
    requires { i + 8 ≤ length buf.now }
    ensures { result ≡ bits_at buf.now (8 * i) 64 }
{
    let mut w: u64 = 0;
    for k in 0..8 {
        w = w * 256 + buf[i + k] as u64;
    }
    w
}

// The 64 bits from byte i on, with zeroes for those that the buffer has not.
fn filled(buf: &[u8], i: usize) -> u64
    ensures { result ≡ bits_at buf.now (8 * i) 64 }
{
    let mut w: u64 = 0;
    for k in 0..8 {
        w = w * 256 + byte(buf, i, k);
    }
    w
}

// Byte k of the eight from byte i on, or 0 if the buffer has none there.
fn byte(buf: &[u8], i: usize, k: usize) -> u64
    requires { k < 8 }
    ensures { (result ≡ get_or buf.now (i + k) 0) × (result < 256) }
{
    if has(buf, i, k + 1) {
        return buf[i + k] as u64;
    }
    0
}
