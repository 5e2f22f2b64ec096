// A test balise: its packed bits to standard output, between so many bytes of ones, the quiet line.
// Promises: it is safe and it ends; the bytes are balise_writer::write's; a figure that is too
// large is refused as the figure it is.
// Specification: none of its own; what cannot be said of a program's reads and writes stands in
// docs/EXCEPTIONS.md.
#![tactic(auto)]

ghost use Rattle.std.specs.Prelude.{◌≡◌, length};

mod asked;

use asked::BaliseCall;
use balise_writer::Written;
use console::{CallWrong, Stream, System};

// 65,535 bytes of ones.
fn ones() -> [u8; 65535]
    ensures { 65535 ≡ length result }
{
    [0xFF; 65535]
}

// So many bytes of ones, at most 65,535.
fn quiet(rt: &impl System, count: usize) -> bool {
    let ones = ones();
    console::write(rt, Stream::Output, &ones, count)
}

// The first bytes of some between quiet line, as far as they can be written.
fn sent(rt: &impl System, bytes: &[u8], count: usize, idle: usize) -> bool {
    if !quiet(rt, idle) {
        return false;
    }
    if !console::write(rt, Stream::Output, bytes, count) {
        return false;
    }
    quiet(rt, idle)
}

// The bytes between quiet line, but not to a terminal.
fn send(rt: &impl System, bytes: &[u8], count: usize, idle: usize) {
    if console::to_terminal(rt, b"balise") {
        return;
    }
    if !sent(rt, bytes, count, idle) {
        console::cannot_write(rt, b"balise");
    }
}

// The balise that is asked for, or why it is refused.
fn answer(rt: &impl System, call: BaliseCall) {
    let mut out = [0u8; 4001];
    let written = balise_writer::write(call.x, call.y, call.z, call.s, call.t, call.n, &mut out);
    match written {
        Written::Bytes(count) => send(rt, &out, count, call.idle),
        Written::TooLarge => console::refuse(rt, b"balise", 2),
        Written::Fifteen => console::refuse(rt, b"balise", 3),
        Written::NotSeven => console::refuse(rt, b"balise", 4),
        Written::Count => console::refuse(rt, b"balise", 20),
        Written::Short => console::refuse(rt, b"balise", 21),
    }
}

fn main(rt: HostRuntime) {
    match asked::arguments(&rt) {
        Ok(call) => answer(&rt, call),
        Err(CallWrong::Usage) => console::usage(
            &rt,
            b"balise",
            b"balise X Y Z S S* N [IDLE], or balise 12 NUMBER S S* N [IDLE]",
        ),
        Err(CallWrong::Said) => {}
    }
}
