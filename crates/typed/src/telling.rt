// What is said of a text that is wrong.
use crate::giving::{Form, LineWrong};
use console::System;
use typed_lines::{fail_line, refuse_line};

// What is wrong with the line of this number.
pub fn say_line(rt: &impl System, program: &[u8], number: u64, wrong: LineWrong) {
    match wrong {
        LineWrong::Unreadable => fail_line(rt, program, number, b" unreadable\n"),
        LineWrong::Refused(refusal) => refuse_line(rt, program, number, refusal),
    }
}

// How the program is called.
pub fn usage(rt: &impl System, program: &[u8], form: Form) {
    match form {
        Form::Trace => console::usage(rt, program, b"trace FILE >TRACE"),
        Form::Plan => console::usage(rt, program, b"plan FILE >PLAN"),
    }
}
