// What is said on standard error of a text that is refused.
use crate::taking::{LineWrong, PassWrong};
use console::System;
use typed_lines::{fail_line, refuse_line};

// Why the line with this number is not taken.
fn say_line(rt: &impl System, line: u64, wrong: LineWrong) {
    match wrong {
        LineWrong::Unreadable => fail_line(rt, b"track", line, b" unreadable\n"),
        LineWrong::TooLarge => refuse_line(rt, b"track", line, 2),
        LineWrong::Fifteen => refuse_line(rt, b"track", line, 3),
        LineWrong::TooHigh => refuse_line(rt, b"track", line, 18),
        LineWrong::Lower => refuse_line(rt, b"track", line, 17),
        LineWrong::TooNear => fail_line(rt, b"track", line, b" too near\n"),
    }
}

// Why a pass ended before the text did.
pub fn say(rt: &impl System, wrong: PassWrong) {
    match wrong {
        PassWrong::Line { number, wrong } => say_line(rt, number, wrong),
        PassWrong::CannotRead => console::cannot_read(rt, b"track", 1),
        PassWrong::CannotWrite => console::cannot_write(rt, b"track"),
    }
}
