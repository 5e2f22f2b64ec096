// The bits of a contact as a waveform.
ghost use Rattle.std.specs.Prelude.{◌≡◌, ◌+◌, ◌≤◌, get_or};
ghost use Rattle.text.specs.Put.{put, came};
ghost use Rattle.telegram.specs.Stretch.{bit_at};
ghost use Rattle.text.specs.Pieces.{puts};
ghost use Rattle.contact_drawing.specs.Strips.{level, bit_of, each};

use text::put;

// Byte i of the buffer, or 0 beyond its end.
fn nth(bits: &[u8], i: usize) -> u8
    ensures { result ≡ get_or bits.now i 0 }
{
    if i >= bits.len() {
        return 0;
    }
    bits[i]
}

// Bit i of the buffer, or 0 beyond its end.
fn bit(bits: &[u8], i: usize) -> u8
    ensures { result ≡ bit_at bits.now i }
{
    (nth(bits, i / 8) >> (7 - i % 8)) % 2
}

// One bit.
fn put_bit(bit: u8, buf: &mut [u8], at: usize) -> usize
    ensures { came result buf.new ≡ put (level bit) buf.old at }
{
    if bit == 0 {
        return put(b"V28h4", buf, at);
    }
    put(b"V16h4", buf, at)
}

// The n bits from bit `first` on.
pub fn put_wave(bits: &[u8], first: usize, n: usize, buf: &mut [u8], at: usize) -> usize
    requires { first + n ≤ 4000 }
    ensures { came result buf.new ≡ puts (each (bit_of bits.now first) 0 n) buf.old at }
{
    let mut next = at;
    for i in 0..n {
        next = put_bit(bit(bits, first + i), buf, next);
    }
    next
}
