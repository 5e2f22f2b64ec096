// The records that the cards hold, looked at.
use crate::out::Note;
use crate::reading::{NotFilled, Start};
use crate::{reading, session};
use console::{Goes, System};
use settings::Store;

// Says that there is more than the buffer has room for, and what can be done.
fn say_too_long(rt: &impl System, start: Start) {
    match start {
        Start::First => console::fail(
            rt,
            b"view",
            b"the cards have more than 4 MiB together: compact them first, or look from a place on: -from PLACE",
        ),
        Start::At { place: _, argument } => console::fail_of(
            rt,
            b"view",
            b"the cards have more than 4 MiB from there on: compact them first, or look from a later place than",
            argument,
        ),
    }
}

// Looks at the records that were read, so many being passed over before them.
fn look(rt: &impl System, store: Store, start: Start, before: u64, trace: &[u8]) {
    match start {
        Start::First => session::hold(rt, store, trace, Note::Nothing),
        Start::At { place: _, argument } => {
            if trace.len() == 0 {
                console::fail_of(rt, b"view", b"no record at or past", argument);
                return;
            }
            let record = std::num::wrapping_add_u64(before, 1);
            let place = ride::odometer_at(trace, 0);
            session::hold(rt, store, trace, Note::From { record, place });
        }
    }
}

// Reads the cards from this argument on, whose lengths were kept, and looks at them.
pub fn open(rt: &impl System, store: Store, start: Start, first: usize, lengths: &[u64]) {
    let mut trace = reading::room();
    let step = reading::read(rt, start, first, lengths, &mut trace);
    let bytes = step.have;
    let how = step.how;
    match how {
        Ok(Goes::More) => {}
        Ok(Goes::End) => look(rt, store, start, step.before, &trace[..bytes]),
        Err(NotFilled::TooLong) => say_too_long(rt, start),
        Err(NotFilled::Failed) => {}
    }
}
