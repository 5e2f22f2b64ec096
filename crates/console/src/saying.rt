// What a program says on standard error: one line that begins with its name.
use crate::status::{CallEnded, tell, writes_to_pipe};
use crate::streams::{Stream, write};
use crate::system::System;
use std::io::ErrorKind;

// Bytes of a line, as far as they can be written.
pub fn say(rt: &impl System, bytes: &[u8]) {
    let _ = rt.write_error(bytes);
}

// The name with which a line begins.
pub fn begin_line(rt: &impl System, program: &[u8]) {
    say(rt, program);
    say(rt, b": ");
}

// An argument. Of one that is longer than a path can be nothing is said.
fn say_argument(rt: &impl System, number: usize) {
    let mut text = [0u8; 4096];
    if let Ok(length) = rt.arg(number, &mut text) {
        say(rt, &text[..length]);
    }
}

// The end of a line by which the call came to nothing.
fn end_line(rt: &impl System) {
    say(rt, b"\n");
    tell(rt, CallEnded::Said);
}

// `PROGRAM: WORDS`, and the call came to nothing.
pub fn fail(rt: &impl System, program: &[u8], words: &[u8]) {
    begin_line(rt, program);
    say(rt, words);
    end_line(rt);
}

// `PROGRAM: WORDS ARGUMENT`, likewise.
pub fn fail_of(rt: &impl System, program: &[u8], words: &[u8], number: usize) {
    begin_line(rt, program);
    say(rt, words);
    say(rt, b" ");
    say_argument(rt, number);
    end_line(rt);
}

// `PROGRAM: ARGUMENT WORDS`, likewise.
pub fn fail_with(rt: &impl System, program: &[u8], number: usize, words: &[u8]) {
    begin_line(rt, program);
    say_argument(rt, number);
    say(rt, b" ");
    say(rt, words);
    end_line(rt);
}

// `PROGRAM: usage: CALL`.
pub fn usage(rt: &impl System, program: &[u8], call: &[u8]) {
    begin_line(rt, program);
    say(rt, b"usage: ");
    say(rt, call);
    end_line(rt);
}

// Whether nobody reads standard output any more, after a write that failed: of a pipe another one
// says so, and nothing else gets a byte by it.
fn is_unheard(rt: &impl System) -> bool {
    if !writes_to_pipe(rt) {
        return false;
    }
    match rt.write_all(b"\n") {
        Ok(()) => false,
        Err(error) => matches!(error.kind(), ErrorKind::BrokenPipe),
    }
}

// `PROGRAM: cannot write`; nothing, where nobody reads the output any more.
pub fn cannot_write(rt: &impl System, program: &[u8]) {
    if is_unheard(rt) {
        tell(rt, CallEnded::Unheard);
        return;
    }
    fail(rt, program, b"cannot write");
}

// `PROGRAM: NAME is no WHAT: ARGUMENT`, as in `balise: Z is no figure: 0x72`.
pub fn wrong(rt: &impl System, program: &[u8], name: &[u8], what: &[u8], number: usize) {
    begin_line(rt, program);
    say(rt, name);
    say(rt, b" is no ");
    say(rt, what);
    say(rt, b": ");
    say_argument(rt, number);
    end_line(rt);
}

// `PROGRAM: refused 2: WORDS`, for a program whose result is bytes.
pub fn refuse(rt: &impl System, program: &[u8], number: u8) {
    let mut line = [0u8; 128];
    let count = refusals::put_refused(number, &mut line, 0);
    begin_line(rt, program);
    write(rt, Stream::Error, &line, count);
    tell(rt, CallEnded::Refused);
}

// Whether a program's bytes would go to a terminal; then that is said.
pub fn to_terminal(rt: &impl System, program: &[u8]) -> bool {
    if rt.is_output_terminal() {
        fail(rt, program, b"writes bytes: send them to a file");
        return true;
    }
    false
}
