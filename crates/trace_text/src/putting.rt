// The line of a record, piece by piece, where there is room for it.
ghost use Rattle.std.specs.Prelude.{◌≡◌, ◌+◌, ◌≤◌, length, ◌++◌};
ghost use Rattle.text.specs.Put.{put, came};
ghost use Rattle.trace_text.specs.declared.What.{What};
ghost use Rattle.trace_text.specs.Line.{hex_sign, byte_text, balise, what_text, thing_text, record_line};

use crate::What;
use text::{put, put_number};

// The sign of a hex digit, a capital.
fn hex_sign(digit: u8) -> u8
    requires { digit ≤ 15 }
    ensures { result ≡ hex_sign digit }
{
    if digit < 10 {
        return 48 + digit;
    }
    55 + digit
}

// A blank and a byte in hex.
fn put_byte(byte: u8, buf: &mut [u8], at: usize) -> usize
    ensures { came result buf.new ≡ put (byte_text byte) buf.old at }
{
    let high = hex_sign(byte / 16);
    let low = hex_sign(byte % 16);
    put(&[32, high, low], buf, at)
}

// The figures of a balise, or 12 and its number.
fn put_balise(x: u8, y: u16, z: u8, buf: &mut [u8], at: usize) -> usize
    requires { at + length (balise x y z) ≤ length buf.old }
    ensures { came result buf.new ≡ put (balise x y z) buf.old at }
{
    if x == 12 {
        return put_number(b" 12 ", y as u64, buf, at);
    }
    let a = put_number(b" ", x as u64, buf, at);
    let b = put_number(b" ", y as u64, buf, a);
    put_number(b" ", z as u64, buf, b)
}

// Three bytes.
fn put_words(x: u8, y: u8, z: u8, buf: &mut [u8], at: usize) -> usize
    requires { at + length (byte_text x ++ byte_text y ++ byte_text z) ≤ length buf.old }
    ensures { came result buf.new ≡ put (byte_text x ++ byte_text y ++ byte_text z) buf.old at }
{
    let a = put_byte(x, buf, at);
    let b = put_byte(y, buf, a);
    put_byte(z, buf, b)
}

// Any record: its kind and its words in hex.
fn put_raw(kind: u8, x: u8, y: u8, z: u8, buf: &mut [u8], at: usize) -> usize
    requires { at + length (what_text (What.Raw kind x y z)) ≤ length buf.old }
    ensures { came result buf.new ≡ put (what_text (What.Raw kind x y z)) buf.old at }
{
    let a = put(b" raw", buf, at);
    let b = put_byte(kind, buf, a);
    put_words(x, y, z, buf, b)
}

// What lies there.
fn put_what(what: What, buf: &mut [u8], at: usize) -> usize
    requires { at + length (what_text what) ≤ length buf.old }
    ensures { came result buf.new ≡ put (what_text what) buf.old at }
{
    match what {
        What::Balise { x, y, z } => put_balise(x, y, z, buf, at),
        What::Marker => put(b" marker", buf, at),
        What::Unreadable => put(b" unreadable", buf, at),
        What::Position => put(b" position", buf, at),
        What::Raw { kind, x, y, z } => put_raw(kind, x, y, z, buf, at),
    }
}

// The place, and what lies there.
pub fn put_thing(place: u32, what: What, buf: &mut [u8], at: usize) -> usize
    requires { at + length (thing_text place what) ≤ length buf.old }
    ensures { came result buf.new ≡ put (thing_text place what) buf.old at }
{
    let a = put_number(b"", place as u64, buf, at);
    put_what(what, buf, a)
}

// The line.
pub fn put_line(number: u64, place: u32, what: What, buf: &mut [u8], at: usize) -> usize
    requires { at + length (record_line number place what) ≤ length buf.old }
    ensures { came result buf.new ≡ put (record_line number place what) buf.old at }
{
    let a = put_number(b"", place as u64, buf, at);
    let b = put_what(what, buf, a);
    let c = put_number(b" # ", number, buf, b);
    put(b"\n", buf, c)
}
