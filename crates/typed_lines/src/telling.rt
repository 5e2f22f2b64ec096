// What is said of a line that is wrong, on standard error; and the launcher is told.
use console::{CallEnded, Stream, System};

// The program's name, and a line that goes on after it.
fn say(rt: &impl System, program: &[u8], line: &[u8], count: usize) {
    console::say(rt, program);
    console::write(rt, Stream::Error, line, count);
}

// `PROGRAM: line 3` and these words, which end the line; the call came to nothing.
pub fn fail_line(rt: &impl System, program: &[u8], number: u64, words: &[u8]) {
    let mut line = [0u8; 64];
    let next = text::put_number(b": line ", number, &mut line, 0);
    let end = text::put(words, &mut line, next);
    say(rt, program, &line, end);
    console::tell(rt, CallEnded::Said);
}

// `PROGRAM: line 3 refused 2: WORDS`.
pub fn refuse_line(rt: &impl System, program: &[u8], number: u64, refusal: u8) {
    let mut line = [0u8; 128];
    let next = text::put_number(b": line ", number, &mut line, 0);
    let after = text::put(b" ", &mut line, next);
    let end = refusals::put_refused(refusal, &mut line, after);
    say(rt, program, &line, end);
    console::tell(rt, CallEnded::Refused);
}
