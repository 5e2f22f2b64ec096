// What a program says on standard error of a lead that failed.
use console::{Goes, PassFailed, System};

// `PROGRAM: cannot open FILE` or `PROGRAM: cannot read FILE`; of leads that are over or go on, or
// of a piece that has no room, nothing.
pub fn say(rt: &impl System, program: &[u8], how: Result<Goes, PassFailed>) {
    match how {
        Ok(_) => {}
        Err(PassFailed::CannotOpen(number)) => console::cannot_open(rt, program, number),
        Err(PassFailed::CannotRead(number)) => cannot_read(rt, program, number),
        Err(PassFailed::NoRoom) => {}
    }
}

// Standard input has no name where no argument names it.
fn cannot_read(rt: &impl System, program: &[u8], number: usize) {
    if console::argument_count(rt) <= number {
        console::fail(rt, program, b"cannot read standard input");
        return;
    }
    console::cannot_read(rt, program, number);
}
