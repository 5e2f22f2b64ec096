// What is typed in a file, a line for each thing, made into bytes on standard output, for the
// programs `trace` and `plan`. `run(rt, program, form)` takes the file that the first argument
// names and goes over it twice: once for what is wrong, which is said on standard error in one line
// (`trace: line 3 unreadable`, `trace: line 3 refused 2`, `plan: refused 26`), once for the bytes.
// Promises: it is safe and it ends, in the same memory for a file of any size; what a line says and
// its bytes are those of trace_text and plan_text. What is read or written stands outside
// contracts: docs/EXCEPTIONS.md.
#![tactic(auto)]

mod giving;
mod going;
mod telling;

use console::{Source, System};
pub use giving::Form;
use going::PassWrong;

// The argument of the file.
const FILE: usize = 1;

// Says why a pass ended before the text did.
fn say(rt: &impl System, program: &[u8], wrong: PassWrong) {
    match wrong {
        PassWrong::Line { number, wrong } => telling::say_line(rt, program, number, wrong),
        PassWrong::CannotRead => console::cannot_read(rt, program, FILE),
        PassWrong::CannotWrite => console::cannot_write(rt, program),
    }
}

// The second pass, over an open file that is begun again.
fn again(rt: &impl System, program: &[u8], form: Form, file: &mut Source) {
    if !console::to_start(file) {
        console::only_once(rt, program, FILE);
        return;
    }
    if let Err(wrong) = going::pass(rt, form, file, true) {
        say(rt, program, wrong);
    }
}

// Goes over the open file twice.
fn twice(rt: &impl System, program: &[u8], form: Form, file: &mut Source) {
    match going::pass(rt, form, file, false) {
        Ok(things) => {
            if giving::are_too_many(form, things) {
                console::refuse(rt, program, 26);
            } else {
                again(rt, program, form, file);
            }
        }
        Err(wrong) => say(rt, program, wrong),
    }
}

// The file named, made into bytes.
pub fn run(rt: &impl System, program: &[u8], form: Form) {
    if console::argument_count(rt) != 2 {
        telling::usage(rt, program, form);
        return;
    }
    if console::to_terminal(rt, program) {
        return;
    }
    let Some(mut file) = console::open_card(rt, FILE) else {
        console::cannot_open(rt, program, FILE);
        return;
    };
    twice(rt, program, form, &mut file);
}
