// Lines that were made in a buffer.
ghost use Rattle.std.specs.Prelude.{◌≡◌, length, replicate};

use crate::saying::cannot_write;
use crate::status::{CallEnded, tell};
use crate::system::System;

// The two streams that a program writes to.
#[derive(Clone, Copy)]
pub enum Stream {
    Output,
    Error,
}

// Room for the lines of a block of records: a mebibyte of zeroes.
pub fn room() -> [u8; 1048576]
    ensures { (1048576 ≡ length result) × (result ≡ replicate 1048576 0) }
{
    [0; 1048576]
}

// The first bytes of some; nothing, and no success, where there are fewer.
pub fn write(rt: &impl System, to: Stream, bytes: &[u8], count: usize) -> bool {
    if count > bytes.len() {
        return false;
    }
    let went = match to {
        Stream::Output => rt.write_all(&bytes[..count]),
        Stream::Error => rt.write_error(&bytes[..count]),
    };
    went.is_ok()
}

// The first bytes of some to standard output; where that fails it is said and told.
pub fn put(rt: &impl System, program: &[u8], bytes: &[u8], count: usize) -> bool {
    if write(rt, Stream::Output, bytes, count) {
        return true;
    }
    cannot_write(rt, program);
    false
}

// A line on standard output by which the whole call is refused.
pub fn refuse_by(rt: &impl System, program: &[u8], line: &[u8], count: usize) {
    if put(rt, program, line, count) {
        tell(rt, CallEnded::Refused);
    }
}

// `refused 4: WORDS` on standard output, where that is all that a program has to say.
pub fn refuse_here(rt: &impl System, program: &[u8], number: u8) {
    let mut line = [0u8; 128];
    let count = refusals::put_refused(number, &mut line, 0);
    refuse_by(rt, program, &line, count);
}

// `trace refused 16` on standard output, alone, in document 01's words.
pub fn refuse_trace(rt: &impl System, program: &[u8]) {
    refuse_by(rt, program, b"trace refused 16\n", 17);
}
