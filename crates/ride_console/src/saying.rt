// What is written, and what is said where something goes wrong: a plain listing tells the launcher
// alone.
use console::{CallEnded, CardsWrong, PassFailed, Stream, System, tell};
use ride::Line;

// Writes the first bytes of a buffer.
pub fn write(rt: &impl System, program: &[u8], reasons: bool, out: &[u8], count: usize) -> bool {
    if console::write(rt, Stream::Output, out, count) {
        return true;
    }
    if reasons {
        console::cannot_write(rt, program);
    } else {
        tell(rt, CallEnded::Unwritten);
    }
    false
}

// `trace refused 16`, alone.
pub fn refuse_trace(rt: &impl System, program: &[u8], reasons: bool) {
    let mut out = [0u8; 64];
    let n = ride_text::put_line(Line::Trace(16), &mut out, 0);
    if write(rt, program, reasons, &out, n) {
        tell(rt, CallEnded::Refused);
    }
}

// That the arguments are wrong or missing.
pub fn usage(rt: &impl System, program: &[u8], call: &[u8], reasons: bool) {
    if reasons {
        console::usage(rt, program, call);
        return;
    }
    tell(rt, CallEnded::Usage);
}

// How a call ends by what was found wrong with the cards.
fn ended(wrong: CardsWrong) -> CallEnded {
    match wrong {
        CardsWrong::NoCard => CallEnded::Usage,
        CardsWrong::TooMany => CallEnded::TooMany,
        CardsWrong::CannotOpen(_) => CallEnded::Unread,
        CardsWrong::CannotRead(_) => CallEnded::Unread,
        CardsWrong::BadLength(_) => CallEnded::Refused,
        CardsWrong::Once(_) => CallEnded::Once,
    }
}

// What was found wrong with the cards.
pub fn say_found(rt: &impl System, program: &[u8], reasons: bool, wrong: CardsWrong) {
    if reasons {
        console::say_found(rt, program, Err(wrong));
        return;
    }
    tell(rt, ended(wrong));
}

// What ended a pass over the cards before all were read.
pub fn say_failed(rt: &impl System, program: &[u8], reasons: bool, failed: PassFailed) {
    match failed {
        PassFailed::CannotOpen(card) => {
            say_found(rt, program, reasons, CardsWrong::CannotOpen(card));
        }
        PassFailed::CannotRead(card) => {
            say_found(rt, program, reasons, CardsWrong::CannotRead(card));
        }
        PassFailed::NoRoom => {}
    }
}
