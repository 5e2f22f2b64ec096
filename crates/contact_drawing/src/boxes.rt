// The boxes of the telegrams of a contact.
ghost use Rattle.std.specs.Prelude.{◌≡◌, ◌+◌, ◌≤◌, ◌++◌};
ghost use Rattle.text.specs.Put.{put, came};
ghost use Rattle.text.specs.Text.{decimal};
ghost use Rattle.telegram.specs.Stretch.{bits_at};
ghost use Rattle.telegram.specs.Place.{find};
ghost use Rattle.text.specs.Pieces.{puts};
ghost use Rattle.contact_drawing.specs.Strips.{is_found, boxes, telegram_of, each};

use antenna_text::number_at;
use telegram::NotFound;
use text::{put, put_number};

// Whether the forty bits from bit p on are a telegram.
fn is_telegram(bits: &[u8], p: usize, s: u8, t: u8) -> bool
    ensures { result ≡ is_found (find bits.now p 40 s t) }
{
    match telegram::find(bits, p, 40, s, t) {
        Ok(_) => true,
        Err(NotFound::NotSeven) => false,
        Err(NotFound::Beyond) => false,
        Err(NotFound::NoPlace) => false,
    }
}

// The eight bits from bit p on.
fn byte(bits: &[u8], p: usize) -> u64
    ensures { result ≡ bits_at bits.now p 8 }
{
    (telegram::eight_bytes(bits, p / 8) >> (56 - p % 8)) % 256
}

// The boxes of the telegram at bit p, and where they stand.
fn put_boxes(bits: &[u8], p: usize, s: u8, x: u64, buf: &mut [u8], at: usize) -> usize
    ensures { came result buf.new ≡ put (boxes bits.now p s ++ decimal x) buf.old at }
{
    if byte(bits, p) == s as u64 {
        return put_number(b"<use href='#t1' x='", x, buf, at);
    }
    put_number(b"<use href='#t2' x='", x, buf, at)
}

// What stands at bit i of the contact.
fn put_telegram(
    bits: &[u8],
    first: usize,
    start: usize,
    s: u8,
    t: u8,
    i: usize,
    buf: &mut [u8],
    at: usize,
) -> usize
    requires { first + i ≤ 4000 }
    ensures { came result buf.new ≡ puts (telegram_of bits.now first start s t i) buf.old at }
{
    if is_telegram(bits, first + i, s, t) {
        let x = 4 * i as u64;
        let a = put_boxes(bits, first + i, s, x, buf, at);
        let b = put_number(b"'/><text y='62' x='", x, buf, a);
        let c = put_number(b"'>", number_at(start, i) as u64, buf, b);
        return put(b"</text>\n", buf, c);
    }
    at
}

// What stands at the first n bits.
pub fn put_telegrams(
    bits: &[u8],
    first: usize,
    start: usize,
    n: usize,
    s: u8,
    t: u8,
    buf: &mut [u8],
    at: usize,
) -> usize
    requires { first + n ≤ 4000 }
    ensures { came result buf.new ≡ puts (each (telegram_of bits.now first start s t) 0 n) buf.old at }
{
    let mut next = at;
    for i in 0..n {
        next = put_telegram(bits, first, start, s, t, i, buf, next);
    }
    next
}
