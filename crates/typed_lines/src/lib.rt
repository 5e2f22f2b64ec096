// The lines of a text in an open file, one after the other, for the programs that take a text:
// `trace`, `plan`, `track`.
// 1. `begin()` is before the first line. `next(rt, file, pass, block)` answers the next line of the
//    file with its number, what stands after the last newline too, even if that is empty; nothing
//    where no line is left; or that a read failed (`CannotRead`). `block` is any buffer of three
//    bytes at least, and each call is lent the same one, unchanged.
// 2. `fail_line(rt, program, number, words)` and `refuse_line(rt, program, number, refusal)` say
//    what is wrong with a line: `trace: line 3 unreadable`, `trace: line 3 refused 2: WORDS`.
// Promises: it is safe and it ends, in the same memory for a file of any size. What is kept of a
// line is what `lines` keeps; that the blocks join is crates/lines_laws/specs/Texts.antt. What is
// read or written stands outside contracts: docs/EXCEPTIONS.md.
#![tactic(auto)]

mod telling;

use console::{Source, System};
use lines::{Got, Reader, TextLine};
pub use telling::{fail_line, refuse_line};

// Where the reading of a text stands: the line that is being read and its number, how many bytes of
// the text are in the block and where the line goes on there; whether the first block was read, and
// whether the last line was handed out.
#[derive(Clone, Copy)]
pub struct TextPass {
    reader: Reader,
    number: u64,
    count: usize,
    at: usize,
    is_begun: bool,
    is_over: bool,
}

// That the text cannot be read.
#[derive(Clone, Copy, PartialEq, Eq)]
pub struct CannotRead;

// A line, its number, and the pass after it.
#[derive(Clone, Copy)]
pub struct NextLine {
    pub pass: TextPass,
    pub line: TextLine,
    pub number: u64,
}

// Before the first line of an open file. (Compiled into a loop over lines, its words would have the
// compiler copy each line field by field.)
#[inline(never)]
pub fn begin() -> TextPass {
    TextPass {
        reader: lines::fresh(),
        number: 1,
        count: 0,
        at: 0,
        is_begun: false,
        is_over: false,
    }
}

// Reads on in the bytes of the text that the block has.
fn in_block(reader: Reader, block: &[u8], count: usize, at: usize) -> Got {
    if count > block.len() {
        return lines::next_line(reader, block, at);
    }
    lines::next_line(reader, &block[..count], at)
}

// Where the lines of the first block begin: a byte order mark is passed over.
fn start_of(block: &[u8], count: usize) -> usize {
    if count > block.len() {
        return lines::begin(block);
    }
    lines::begin(&block[..count])
}

// The pass goes on in a block of so many bytes, with this reader, from a place on.
fn with_block(pass: TextPass, reader: Reader, count: usize, at: usize) -> TextPass {
    TextPass {
        reader,
        number: pass.number,
        count,
        at,
        is_begun: true,
        is_over: pass.is_over,
    }
}

// A line, after which the next one begins at a place of the block; the last one where the text is
// over.
fn one_line(pass: TextPass, got: Got, is_over: bool) -> NextLine {
    let line = got.line;
    let reader = got.reader;
    let number = pass.number;
    NextLine {
        pass: TextPass {
            reader,
            number: std::num::wrapping_add_u64(number, 1),
            count: pass.count,
            at: got.next,
            is_begun: true,
            is_over,
        },
        line,
        number,
    }
}

// The first line, after the first block is read.
fn first_line(
    rt: &impl System,
    file: &mut Source,
    pass: TextPass,
    block: &mut [u8],
) -> Result<Option<NextLine>, CannotRead> {
    let got = console::fill(rt, file, block);
    if got.failed {
        return Err(CannotRead);
    }
    let at = start_of(block, got.count);
    let reader = pass.reader;
    on(rt, file, with_block(pass, reader, got.count, at), block)
}

// What stands after the last newline, where the text ends. (Likewise.)
#[inline(never)]
fn last_line(reader: Reader) -> Got {
    lines::next_line(reader, b"", 0)
}

// The next line, block after block, as `next` answers it: made anew there, each answer would be one
// more copy of a line. A proved loop has to end, and nothing says that a file does: so it takes no
// more turns than no run uses up.
fn on(
    rt: &impl System,
    file: &mut Source,
    pass: TextPass,
    block: &mut [u8],
) -> Result<Option<NextLine>, CannotRead> {
    let mut here = pass;
    for _ in 0..u64::MAX {
        let reader = here.reader;
        let got = in_block(reader, block, here.count, here.at);
        if got.ends {
            return Ok(Some(one_line(here, got, false)));
        }
        let after = got.reader;
        let more = console::fill(rt, file, block);
        let count = more.count;
        if more.failed {
            return Err(CannotRead);
        }
        if count == 0 {
            return Ok(Some(one_line(here, last_line(after), true)));
        }
        here = with_block(here, after, count, 0);
    }
    Err(CannotRead)
}

// The next line, if one is left.
pub fn next(
    rt: &impl System,
    file: &mut Source,
    pass: TextPass,
    block: &mut [u8],
) -> Result<Option<NextLine>, CannotRead> {
    if pass.is_over {
        return Ok(None);
    }
    if !pass.is_begun {
        return first_line(rt, file, pass, block);
    }
    on(rt, file, pass, block)
}
