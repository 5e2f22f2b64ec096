// A text gone over once, line by line.
ghost use Rattle.std.specs.Prelude.{◌≡◌};

use crate::giving::{Form, LineWrong, of_line};
use console::{Source, Stream, System};
use lines::TextLine;
use typed_lines::CannotRead;

// Why a pass ends before the text does: the line of this number is wrong, or a read or a write
// failed.
#[derive(Clone, Copy, PartialEq, Eq)]
pub enum PassWrong {
    Line { number: u64, wrong: LineWrong },
    CannotRead,
    CannotWrite,
}

impl From<CannotRead> for PassWrong {
    ghost use Rattle.typed.specs.declared.going.PassWrong.{PassWrong};

    ghost from_gives = { λ _ e. e ≡ PassWrong.CannotRead };

    fn from(_cannot_read: CannotRead) -> PassWrong {
        PassWrong::CannotRead
    }
}

// Where a pass stands: how many things were given, and how many bytes wait to be written.
#[derive(Clone, Copy)]
struct TypedSoFar {
    things: u64,
    bytes: usize,
}

// Writes what waits, if it is to be written.
fn write(rt: &impl System, bytes: usize, writes: bool, out: &[u8]) -> Result<(), PassWrong> {
    if writes {
        if !console::write(rt, Stream::Output, out, bytes) {
            return Err(PassWrong::CannotWrite);
        }
    }
    Ok(())
}

// A line that gives eight bytes: they wait in out, which is written before it is full.
fn given(
    rt: &impl System,
    done: TypedSoFar,
    eight: [u8; 8],
    writes: bool,
    out: &mut [u8],
) -> Result<TypedSoFar, PassWrong> {
    let mut bytes = text::put(&eight, out, done.bytes);
    if bytes > 65528 {
        write(rt, bytes, writes, out)?;
        bytes = 0;
    }
    Ok(TypedSoFar {
        things: std::num::wrapping_add_u64(done.things, 1),
        bytes,
    })
}

// A line taken. A wrong one ends the pass.
fn take(
    rt: &impl System,
    form: Form,
    done: TypedSoFar,
    line: TextLine,
    number: u64,
    writes: bool,
    out: &mut [u8],
) -> Result<TypedSoFar, PassWrong> {
    match of_line(form, line) {
        Ok(Some(eight)) => given(rt, done, eight, writes, out),
        Ok(None) => Ok(done),
        Err(wrong) => Err(PassWrong::Line { number, wrong }),
    }
}

// All lines of the open file, and how many things they gave. It takes no more turns than no text
// uses up.
fn over(
    rt: &impl System,
    form: Form,
    file: &mut Source,
    writes: bool,
    block: &mut [u8],
    out: &mut [u8],
) -> Result<u64, PassWrong> {
    let mut pass = typed_lines::begin();
    let mut done = TypedSoFar {
        things: 0,
        bytes: 0,
    };
    for _ in 0..u64::MAX {
        let Some(next) = typed_lines::next(rt, file, pass, block)? else {
            write(rt, done.bytes, writes, out)?;
            return Ok(done.things);
        };
        pass = next.pass;
        let line = next.line;
        done = take(rt, form, done, line, next.number, writes, out)?;
    }
    Ok(done.things)
}

// A pass over the open file, which writes or not; how many things the text gives.
pub fn pass(
    rt: &impl System,
    form: Form,
    file: &mut Source,
    writes: bool,
) -> Result<u64, PassWrong> {
    let mut block = [0u8; 65536];
    let mut out = [0u8; 65536];
    over(rt, form, file, writes, &mut block, &mut out)
}
