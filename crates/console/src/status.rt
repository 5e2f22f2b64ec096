// How a call ended, for the launcher.
use crate::system::System;
use std::fs::{File, OpenOptions};
use std::io::{IsTerminal, Seek, SeekFrom, Write};

// The descriptor that the launcher alone opens, by the name that the system has for it.
const LAUNCHER: &str = "/proc/self/fd/9";

// What the launcher has to tell apart: the whole call was refused by a number, or not passed; it
// came to nothing, and that was said; or nothing was said, and a card cannot be opened or read, a
// write failed, the arguments are wrong, there are too many cards, a card cannot be gone over
// twice, or nobody reads the output any more.
#[derive(Clone, Copy)]
pub enum CallEnded {
    Refused,
    Said,
    Unread,
    Unwritten,
    Usage,
    TooMany,
    Once,
    Unheard,
}

// Standard output, likewise.
const OUTPUT: &str = "/proc/self/fd/1";

// A pipe by the name of its descriptor: what has a position is a file, and a terminal is none. It is
// opened for reading too, since a pipe that nobody reads any more would else be waited for.
fn pipe(rt: &impl System, name: &str) -> Option<File> {
    let opened = OpenOptions::new().read(true).write(true).open(rt, name);
    let Ok(mut file) = opened else {
        return None;
    };
    if file.is_terminal() {
        return None;
    }
    if file.seek(SeekFrom::Current(0)).is_ok() {
        return None;
    }
    Some(file)
}

// Whether standard output is a pipe.
pub fn writes_to_pipe(rt: &impl System) -> bool {
    pipe(rt, OUTPUT).is_some()
}

// One digit to the launcher's pipe.
fn put_digit(rt: &impl System, digit: &[u8]) {
    if let Some(mut launcher) = pipe(rt, LAUNCHER) {
        let _ = launcher.write_all(digit);
    }
}

// Tells the launcher. Where more than once is told, the last counts.
pub fn tell(rt: &impl System, ended: CallEnded) {
    match ended {
        CallEnded::Refused => put_digit(rt, b"1"),
        CallEnded::Said => put_digit(rt, b"2"),
        CallEnded::Unread => put_digit(rt, b"3"),
        CallEnded::Unwritten => put_digit(rt, b"4"),
        CallEnded::Usage => put_digit(rt, b"5"),
        CallEnded::TooMany => put_digit(rt, b"6"),
        CallEnded::Once => put_digit(rt, b"7"),
        CallEnded::Unheard => put_digit(rt, b"8"),
    }
}
