// What is known between two places: speeds as lines, and where the next signal is due.
ghost use Rattle.std.specs.Prelude.{◌≡◌, ◌≤◌};
ghost use Rattle.text.specs.Put.{came};
ghost use Rattle.ride.specs.declared.Linking.{Linking};
ghost use Rattle.text.specs.Pieces.{puts};
ghost use Rattle.ride_drawing.specs.Metres.{metres};
ghost use Rattle.ride_drawing.specs.Span.{height, speed_line, level, due, middle, band, is_rising, main_words, target_words, span};

use crate::places::{greater, lesser, on_strip};
use group::Told;
use ride::{Known, Linking};
use text::{put, put_number};

// Words and decimetres in metres.
pub fn put_metres(words: &[u8], dm: u64, buf: &mut [u8], at: usize) -> usize
    ensures { came result buf.new ≡ puts (metres words.now dm) buf.old at }
{
    let a = put_number(words, dm / 10, buf, at);
    put_number(b".", dm % 10, buf, a)
}

// How far down a speed stands.
fn height(kmh: u16) -> u64
    ensures { result ≡ height kmh }
{
    let third = kmh as u64 / 3;
    if third <= 118 { 118 - third } else { 0 }
}

// A speed from l to r, with its figure.
fn put_speed(words: &[u8], kmh: u16, l: u64, r: u64, buf: &mut [u8], at: usize) -> usize
    requires { l ≤ r }
    ensures { came result buf.new ≡ puts (speed_line words.now kmh l r) buf.old at }
{
    let a = put_metres(words, l, buf, at);
    let b = put_number(b" ", height(kmh), buf, a);
    let c = put_metres(b")'><path d='M0 0h", r - l, buf, b);
    let d = put_number(b"'/><text y='-3'>", kmh as u64, buf, c);
    put(b"</text></g>\n", buf, d)
}

// A speed, where it is known and l lies before r.
fn put_level(words: &[u8], told: Told, l: u64, r: u64, buf: &mut [u8], at: usize) -> usize
    ensures { came result buf.new ≡ puts (level words.now told l r) buf.old at }
{
    if l >= r {
        return at;
    }
    match told {
        Told::Unknown => at,
        Told::Kmh(kmh) => put_speed(words, kmh, l, r, buf, at),
    }
}

// The band in which a signal is due.
fn put_due(l: u64, r: u64, buf: &mut [u8], at: usize) -> usize
    ensures { came result buf.new ≡ puts (due l r) buf.old at }
{
    if l >= r {
        return at;
    }
    let a = put_metres(b"<rect class='d' y='124' height='64' x='", l, buf, at);
    let b = put_metres(b"' width='", r - l, buf, a);
    put(b"'/>\n", buf, b)
}

// The middle of the band.
fn put_middle(edge: u64, from: u64, to: u64, place: u64, buf: &mut [u8], at: usize) -> usize
    ensures { came result buf.new ≡ puts (middle edge from to place) buf.old at }
{
    let x = on_strip(edge, place);
    if (from <= place) & ((place <= to) & ((from < to) & (x < 11000))) {
        let a = put_metres(b"<path class='c' d='M", x, buf, at);
        return put(b" 124v64'/>\n", buf, a);
    }
    at
}

// Where the next signal is due, from one place to another.
fn put_linked(
    distance: u32,
    a: u32,
    edge: u64,
    from: u64,
    to: u64,
    buf: &mut [u8],
    at: usize,
) -> usize
    ensures { came result buf.new ≡ puts (band (Linking.Set distance a) edge from to) buf.old at }
{
    let far = distance as u64;
    let start = a as u64;
    let l = on_strip(edge, greater(from, start + 4 * far / 5));
    let r = on_strip(edge, lesser(to, start + 6 * far / 5));
    let next = put_due(l, r, buf, at);
    put_middle(edge, from, to, start + far, buf, next)
}

// Where the next signal is due, if linking is set.
pub fn put_band(linking: Linking, edge: u64, from: u64, to: u64, buf: &mut [u8], at: usize) -> usize
    ensures { came result buf.new ≡ puts (band linking edge from to) buf.old at }
{
    match linking {
        Linking::Unset => at,
        Linking::Set { distance, from: a } => put_linked(distance, a, edge, from, to, buf, at),
    }
}

// Whether the target lies above the main speed.
fn is_rising(main: Told, target: Told) -> bool
    ensures { result ≡ is_rising main target }
{
    match main {
        Told::Unknown => false,
        Told::Kmh(m) => match target {
            Told::Unknown => false,
            Told::Kmh(t) => m < t,
        },
    }
}

// The main speed.
fn put_main(rising: bool, main: Told, l: u64, r: u64, buf: &mut [u8], at: usize) -> usize
    ensures { came result buf.new ≡ puts (level (main_words rising) main l r) buf.old at }
{
    if rising {
        return put_level(b"<g class='m u' transform='translate(", main, l, r, buf, at);
    }
    put_level(b"<g class='m' transform='translate(", main, l, r, buf, at)
}

// The target.
fn put_target(rising: bool, target: Told, l: u64, r: u64, buf: &mut [u8], at: usize) -> usize
    ensures { came result buf.new ≡ puts (level (target_words rising) target l r) buf.old at }
{
    if rising {
        return put_level(b"<g class='t' transform='translate(", target, l, r, buf, at);
    }
    put_level(
        b"<g class='t u' transform='translate(",
        target,
        l,
        r,
        buf,
        at,
    )
}

// What is known from one place to another.
pub fn put_span(edge: u64, from: u64, to: u64, known: Known, buf: &mut [u8], at: usize) -> usize
    ensures { came result buf.new ≡ puts (span edge from to known) buf.old at }
{
    let main = known.main;
    let target = known.target;
    let linking = known.linking;
    let l = on_strip(edge, from);
    let r = on_strip(edge, to);
    let rising = is_rising(main, target);
    let a = put_main(rising, main, l, r, buf, at);
    let b = put_target(rising, target, l, r, buf, a);
    put_band(linking, edge, from, to, buf, b)
}
