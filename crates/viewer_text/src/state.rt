// The lines, piece by piece, where there is room for them. Each piece begins with the newline of
// the line before.
ghost use Rattle.std.specs.Prelude.{◌≡◌, ◌+◌, ◌≤◌, ◌++◌, length};
ghost use Rattle.text.specs.Put.{put, came};
ghost use Rattle.viewer_text.specs.Text.{speed, state};
ghost use Rattle.viewer_text.specs.Pieces.{on_place, on_group, on_linking, on_figure, on_speeds};

use group::{Group, Number, Told};
use ride::{Known, Linking, Ride};
use text::{put, put_number};

// How far it is, and the odometer.
fn put_place(
    number: usize,
    count: usize,
    kept: usize,
    odometer: u32,
    buf: &mut [u8],
    at: usize,
) -> usize
    requires { at + length (on_place number count kept odometer) ≤ length buf.old }
    ensures { came result buf.new ≡ put (on_place number count kept odometer) buf.old at }
{
    let a = put_number(b"", number as u64, buf, at);
    let b = put_number(b" of ", count as u64, buf, a);
    let c = put_number(b", kept ", kept as u64, buf, b);
    put_number(b"\n  odometer ", odometer as u64, buf, c)
}

// The group, if one is open.
fn put_group(of: Group, buf: &mut [u8], at: usize) -> usize
    requires { at + length (on_group of) ≤ length buf.old }
    ensures { came result buf.new ≡ put (on_group of) buf.old at }
{
    if of.count == 0 {
        return put(b"\n  no group", buf, at);
    }
    let first = of.kept[0];
    let a = put_number(b"\n  group of ", of.count as u64, buf, at);
    let b = put_number(b" from ", first.place as u64, buf, a);
    put_number(b" to ", of.last as u64, buf, b)
}

// Linking, if it is set.
fn put_linking(of: Linking, buf: &mut [u8], at: usize) -> usize
    requires { at + length (on_linking of) ≤ length buf.old }
    ensures { came result buf.new ≡ put (on_linking of) buf.old at }
{
    match of {
        Linking::Unset => put(b"\n  no linking", buf, at),
        Linking::Set { distance, from } => {
            let a = put_number(b"\n  linking ", distance as u64, buf, at);
            put_number(b" from ", from as u64, buf, a)
        }
    }
}

// Words, and then a speed.
fn put_speed(words: &[u8], of: Told, buf: &mut [u8], at: usize) -> usize
    requires { at + length (words.now ++ speed of) ≤ length buf.old }
    ensures { came result buf.new ≡ put (words.now ++ speed of) buf.old at }
{
    match of {
        Told::Unknown => {
            let a = put(words, buf, at);
            put(b"none", buf, a)
        }
        Told::Kmh(v) => put_number(words, v as u64, buf, at),
    }
}

// The number.
fn put_figure(of: Number, buf: &mut [u8], at: usize) -> usize
    requires { at + length (on_figure of) ≤ length buf.old }
    ensures { came result buf.new ≡ put (on_figure of) buf.old at }
{
    match of {
        Number::None => put(b", number none", buf, at),
        Number::Figure(m) => put_number(b", number ", m as u64, buf, at),
    }
}

// The speeds and the number.
fn put_speeds(of: Known, buf: &mut [u8], at: usize) -> usize
    requires { at + length (on_speeds of) ≤ length buf.old }
    ensures { came result buf.new ≡ put (on_speeds of) buf.old at }
{
    let main = of.main;
    let target = of.target;
    let number = of.number;
    let a = put_speed(b"\n  main ", main, buf, at);
    let b = put_speed(b", target ", target, buf, a);
    put_figure(number, buf, b)
}

// All lines.
pub fn put_all(
    number: usize,
    count: usize,
    kept: usize,
    ride: Ride,
    buf: &mut [u8],
    at: usize,
) -> usize
    requires { at + length (state number count kept ride) ≤ length buf.old }
    ensures { came result buf.new ≡ put (state number count kept ride) buf.old at }
{
    let group = ride.group;
    let known = ride.known;
    let linked = known.linking;
    let a = put_place(number, count, kept, ride.odometer, buf, at);
    let b = put_group(group, buf, a);
    let c = put_linking(linked, buf, b);
    let d = put_speeds(known, buf, c);
    put(b"\n", buf, d)
}
