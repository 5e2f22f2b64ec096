// The picture of a contact, and the strips that show its parts.
ghost use Rattle.std.specs.Prelude.{◌≡◌, ◌+◌, ◌≤◌};
ghost use Rattle.text.specs.Put.{came};
ghost use Rattle.text.specs.Pieces.{puts};
ghost use Rattle.contact_drawing.specs.Strips.{cut_at, strip, each, waveform, telegrams, picture_with};

use crate::{boxes, sums, wave};
use antenna_text::number_at;
use text::{put, put_number};

// What is said of a contact of so many bits that is cut.
pub fn put_cut(length: usize, buf: &mut [u8], at: usize) -> usize
    ensures { came result buf.new ≡ puts (cut_at length) buf.old at }
{
    if length <= 2000 {
        return at;
    }
    let a = put_number(b"<p>the first 2,000 of ", length as u64, buf, at);
    put(b" bits</p>\n", buf, a)
}

// The strip k.
fn put_strip(start: usize, k: usize, buf: &mut [u8], at: usize) -> usize
    requires { k ≤ 4000 }
    ensures { came result buf.new ≡ puts (strip start k) buf.old at }
{
    let x = 384 * k as u64;
    let a = put_number(b"<svg viewBox='", x, buf, at);
    let b = put_number(b" 0 416 66'><use href='#e' x='", x, buf, a);
    let c = put_number(b"'/><use href='#c", start as u64, buf, b);
    let d = put_number(b"'/><text y='10' x='", x, buf, c);
    let e = put_number(b"'>", number_at(start, 96 * k) as u64, buf, d);
    put(b"</text></svg>\n", buf, e)
}

// The first n strips.
fn put_strips(start: usize, n: usize, buf: &mut [u8], at: usize) -> usize
    requires { n ≤ 4000 }
    ensures { came result buf.new ≡ puts (each (strip start) 0 n) buf.old at }
{
    let mut next = at;
    for k in 0..n {
        next = put_strip(start, k, buf, next);
    }
    next
}

// The waveform of n bits.
fn put_waveform(
    bits: &[u8],
    first: usize,
    start: usize,
    n: usize,
    buf: &mut [u8],
    at: usize,
) -> usize
    requires { first + n ≤ 4000 }
    ensures { came result buf.new ≡ puts (waveform bits.now first start n) buf.old at }
{
    let a = put_number(b"<svg class='h'><defs><g id='c", start as u64, buf, at);
    let b = put(b"'><path class='w' d='M0 28", buf, a);
    let c = wave::put_wave(bits, first, n, buf, b);
    put(b"'/>\n", buf, c)
}

// The picture of n bits, and its strips.
pub fn put_picture(
    bits: &[u8],
    first: usize,
    start: usize,
    n: usize,
    s: u8,
    t: u8,
    buf: &mut [u8],
    at: usize,
) -> usize
    requires { first + n ≤ 4000 }
    ensures { came result buf.new ≡ puts (picture_with (telegrams bits.now first start n s t) bits.now first start n) buf.old at }
{
    let a = put_waveform(bits, first, start, n, buf, at);
    let b = boxes::put_telegrams(bits, first, start, sums::beginnings(n), s, t, buf, a);
    let c = put(b"</g></defs></svg>\n", buf, b);
    put_strips(start, (n + 95) / 96, buf, c)
}
