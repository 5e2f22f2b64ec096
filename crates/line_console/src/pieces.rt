// The line, piece by piece, as its bytes come.
ghost use Rattle.std.specs.Prelude.{◌≡◌, ◌≤◌, length};

use crate::out;
use crate::out::{Out, Wanted};
use antenna::{Ear, Until};
use console::{Far, Source, System, go_on_somehow, not_begun, read_some, wipe};

// Where the going over stands: the ear, how many bits were heard before, in which bit of the bytes
// kept the latest contact begins, how many bytes are kept, how far all that is, and whether all
// writes so far succeeded.
#[derive(Clone, Copy)]
struct SoFar {
    ear: Ear,
    bits: u64,
    first: u8,
    have: usize,
    far: Far,
    is_good: bool,
}

// Room for what stands for contacts.
fn room() -> [u8; 262144]
    ensures { 262144 ≡ length result }
{
    [0; 262144]
}

// The bytes of a piece from byte `from` on after those that are kept, as many as have room; how
// many are kept then.
fn keep(piece: &[u8], from: usize, kept: &mut [u8], have: usize) -> usize {
    if have >= kept.len() {
        return have;
    }
    if from >= piece.len() {
        return have;
    }
    let room = kept.len() - have;
    if room < piece.len() - from {
        return text::put(&piece[from..from + room], kept, have);
    }
    text::put(&piece[from..], kept, have)
}

// The going over with a piece of so many bits more.
fn further(
    rt: &impl System,
    from: SoFar,
    ear: Ear,
    bits: usize,
    first: u8,
    have: usize,
    is_good: bool,
) -> SoFar {
    let far = from.far;
    SoFar {
        ear,
        bits: std::num::wrapping_add_u64(from.bits, bits as u64),
        first,
        have,
        far: go_on_somehow(rt, far, true, bits / 8),
        is_good,
    }
}

// No text.
fn no_text() -> Out
    ensures { result.length ≡ 0 }
{
    Out {
        length: 0,
        is_good: true,
    }
}

// What stands for the contacts that close in a piece is written.
fn over(
    rt: &impl System,
    from: SoFar,
    asked: Wanted,
    piece: &[u8],
    kept: &mut [u8],
    buf: &mut [u8],
) -> SoFar
    requires { (length piece.now ≤ 65536) × (length buf.old ≡ 262144) }
{
    let bits = piece.len() * 8;
    let mut ear = from.ear;
    let mut first = from.first;
    let mut have = keep(piece, 0, kept, from.have);
    let mut text = no_text();
    let mut i: usize = 0;
    // Stays as it is: the new form is no plainer, a turn goes on behind the bit that was heard last.
    while i < bits {
        match antenna::hear_piece(ear, piece, i, bits - i, asked.s, asked.t) {
            Until::Opened { ear: then, at } => {
                ear = then;
                first = (at % 8) as u8;
                have = keep(piece, at / 8, kept, 0);
                i = at + 1;
            }
            Until::Closed {
                ear: then,
                at,
                length,
                judged,
            } => {
                let end = std::num::wrapping_add_u64(from.bits, at as u64);
                text = out::add(rt, text, asked, end, length, judged, kept, first, buf);
                ear = then;
                i = at + 1;
            }
            Until::Over(then) => {
                ear = then;
                i = bits;
            }
            Until::Beyond => {
                i = bits;
            }
        }
    }
    further(rt, from, ear, bits, first, have, out::flush(rt, text, buf))
}

// The same for the front of the block, so many bytes long.
fn front(
    rt: &impl System,
    from: SoFar,
    asked: Wanted,
    block: &[u8],
    count: usize,
    kept: &mut [u8],
    buf: &mut [u8],
) -> SoFar
    requires { (count ≤ length block.now) × (length block.now ≤ 65536) × (length buf.old ≡ 262144) }
{
    over(rt, from, asked, &block[..count], kept, buf)
}

// What is said at the end of the line, where lines are asked for; whether it was written.
fn end(rt: &impl System, from: SoFar, draws: bool) -> Result<(), LineFailed> {
    let far = from.far;
    wipe(rt, far);
    if draws {
        return Ok(());
    }
    let ear = from.ear;
    let stand = ear.stand;
    match stand {
        antenna::Stand::Inside(_) => {
            if out::refuse(rt, 9) {
                return Ok(());
            }
            Err(LineFailed::Unwritten)
        }
        antenna::Stand::Outside => Ok(()),
    }
}

// A line that has not begun.
fn fresh() -> SoFar {
    SoFar {
        ear: antenna::fresh(),
        bits: 0,
        first: 0,
        have: 0,
        far: not_begun(),
        is_good: true,
    }
}

// Why what the open file gives was not gone over to its end: a read or a write failed.
#[derive(Clone, Copy, PartialEq, Eq)]
pub enum LineFailed {
    Unread,
    Unwritten,
}

// All that the open file gives, as it comes. A proved loop has to end, and nothing says that a line
// does: so it takes no more turns than no run uses up.
pub fn all(
    rt: &impl System,
    from: &mut Source,
    draws: bool,
    s: u8,
    t: u8,
) -> Result<(), LineFailed> {
    let mut block = [0u8; 65536];
    let mut buf = room();
    let mut kept = [0u8; 256];
    let mut heard = fresh();
    for _ in 0..u64::MAX {
        let got = read_some(rt, from, &mut block);
        if got.failed {
            return Err(LineFailed::Unread);
        }
        let count = got.count;
        if count == 0 {
            return end(rt, heard, draws);
        }
        let asked = Wanted { draws, s, t };
        heard = front(rt, heard, asked, &block, count, &mut kept, &mut buf);
        if !heard.is_good {
            return Err(LineFailed::Unwritten);
        }
    }
    Ok(())
}
