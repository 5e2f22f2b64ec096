// How far long work is, on standard error where that is a terminal: `explain: 45 %`, or
// `explain: 512 MiB` where nobody knows how much there is. It is said from the third second on,
// once a second at most; the cursor stays at the line's beginning, so that what comes next stands
// in its place, and at the end it is wiped out.
ghost use Rattle.std.specs.Prelude.{◌≡◌};
ghost use Rattle.console.specs.Pass.{not_begun};

use crate::saying::say;
use crate::system::System;

// Whether the work has begun; the second that it is and how many came since, from the third of
// which on it is said how far it is; how many bytes were gone over; and whether anybody is told.
#[derive(Clone, Copy)]
pub struct Far {
    on: bool,
    last: i64,
    seconds: u64,
    bytes: u64,
    speaks: bool,
}

// Work that has not begun.
pub fn not_begun() -> Far
    ensures { result ≡ not_begun }
{
    Far {
        on: false,
        last: 0,
        seconds: 0,
        bytes: 0,
        speaks: false,
    }
}

// The second that it is.
fn second(rt: &impl System) -> i64 {
    match rt.since_1970() {
        Ok(time) => time.as_secs().cast_signed(),
        Err(_) => 0,
    }
}

// Work that begins now, if it has not. Where the program's lines go to a terminal too they say how
// far it is, and nobody else does.
fn begun(rt: &impl System, far: Far, has_lines: bool) -> Far {
    if far.on {
        return far;
    }
    let is_seen = rt.is_error_terminal();
    let is_mixed = has_lines & rt.is_output_terminal();
    Far {
        on: true,
        last: second(rt),
        seconds: 0,
        bytes: 0,
        speaks: is_seen & !is_mixed,
    }
}

// What stands after the last `/` of a path.
fn say_last(rt: &impl System, path: &[u8]) {
    match path.iter().rposition(|byte| *byte == b'/') {
        Some(at) => say(rt, &path[at + 1..]),
        None => say(rt, path),
    }
}

// The program's name.
fn say_name(rt: &impl System) {
    let mut text = [0u8; 4096];
    if let Ok(length) = rt.arg(0, &mut text) {
        say_last(rt, &text[..length]);
    }
}

// A number and a unit.
fn say_number(rt: &impl System, n: u64, unit: &[u8]) {
    let _ = rt.eprint(n);
    say(rt, unit);
}

// The sum of some lengths, round 2^64.
fn sum_of(lengths: &[u64]) -> u64 {
    lengths
        .iter()
        .fold(0, |sum, length| sum.wrapping_add(*length))
}

// How far it is: in hundredths of all, or in bytes where nobody knows how many there are.
fn say_far(rt: &impl System, bytes: u64, all: u64) {
    say_name(rt);
    say(rt, b": ");
    if all > 0 {
        say_number(rt, bytes / (all / 100 + 1), b" %\r");
        return;
    }
    if bytes < 10485760 {
        say_number(rt, bytes / 1024, b" KiB\r");
        return;
    }
    say_number(rt, bytes / 1048576, b" MiB\r");
}

// The work with so many bytes gone over, in this second.
fn with(far: Far, bytes: u64, last: i64, seconds: u64) -> Far {
    Far {
        on: true,
        last,
        seconds,
        bytes,
        speaks: far.speaks,
    }
}

// So many bytes more were gone over, of those that the lengths say; without a length, of nobody
// knows how many.
pub fn go_on(rt: &impl System, before: Far, has_lines: bool, count: usize, lengths: &[u64]) -> Far {
    let far = begun(rt, before, has_lines);
    let bytes = std::num::wrapping_add_u64(far.bytes, count as u64);
    if !far.speaks {
        return with(far, bytes, far.last, 0);
    }
    let now = second(rt);
    if now == far.last {
        return with(far, bytes, now, far.seconds);
    }
    let seconds = std::num::wrapping_add_u64(far.seconds, 1);
    if seconds > 2 {
        say_far(rt, bytes, sum_of(lengths));
    }
    with(far, bytes, now, seconds)
}

// The same where nobody knows how many there are.
pub fn go_on_somehow(rt: &impl System, before: Far, has_lines: bool, count: usize) -> Far {
    let none = [0u64; 1];
    go_on(rt, before, has_lines, count, &none)
}

// The work is over: what was said last is wiped out.
pub fn wipe(rt: &impl System, far: Far) {
    if far.seconds > 2 {
        say(rt, b"                                        \r");
    }
}
