// The cards joined in one buffer of 4 MiB, half a million records, from the first record on or from
// a place.
ghost use Rattle.std.specs.Prelude.{◌≡◌, ◌≤◌, length};

use crate::going::smaller;
use crate::moving::to_start;
use console::{Goes, Pass, PassFailed, System};

// Where a ride begins: with the first record, or with the first at or past the place that an
// argument names.
#[derive(Clone, Copy)]
pub enum Start {
    First,
    At { place: u64, argument: usize },
}

// Why filling the buffer ended before all was read: there is more than it has room for; or a card
// failed, and that was said.
#[derive(Clone, Copy, PartialEq, Eq)]
pub enum NotFilled {
    TooLong,
    Failed,
}

// Where filling the buffer stands: the pass over the cards, how many bytes the buffer has, how many
// records were passed over before them, and how it goes on.
#[derive(Drop)]
pub struct FilledSoFar {
    pass: Pass,
    pub have: usize,
    pub before: u64,
    pub how: Result<Goes, NotFilled>,
}

// Room for the longest trace.
pub fn room() -> [u8; 4194304]
    ensures { 4194304 ≡ length result }
{
    [0; 4194304]
}

// How filling goes on after a block; what failed is said.
fn judged(rt: &impl System, how: Result<Goes, PassFailed>) -> Result<Goes, NotFilled> {
    match how {
        Ok(goes) => Ok(goes),
        Err(PassFailed::NoRoom) => Err(NotFilled::TooLong),
        Err(_) => {
            console::say_goes(rt, b"view", how);
            Err(NotFilled::Failed)
        }
    }
}

// The next block after so many bytes of the buffer.
fn next(
    rt: &impl System,
    pass: Pass,
    before: u64,
    lengths: &[u64],
    trace: &mut [u8],
    have: usize,
) -> FilledSoFar
    requires { have ≤ length trace.old }
    ensures { result.have ≤ length trace.old }
{
    let block = console::next_block(rt, pass, lengths, &mut trace[have..]);
    let goes = block.how;
    let then = block.pass;
    let how = judged(rt, goes);
    FilledSoFar {
        pass: then,
        have: have + block.read,
        before,
        how,
    }
}

// Before the first block.
fn begin(first: usize) -> FilledSoFar
    ensures { result.have ≡ 0 }
{
    let pass = console::begin(first);
    FilledSoFar {
        pass,
        have: 0,
        before: 0,
        how: Ok(Goes::More),
    }
}

// The first block that has a record at or past the place, but for those that will be refused, from
// that record on; the blocks before it are passed over. It takes no more turns than no run uses up.
fn begin_at(
    rt: &impl System,
    first: usize,
    place: u64,
    lengths: &[u64],
    trace: &mut [u8],
) -> FilledSoFar
    ensures { result.have ≤ length trace.old }
{
    let most = smaller(trace.len(), 65536);
    let mut step = begin(first);
    for _ in 0..u64::MAX {
        let pass = step.pass;
        let before = step.before;
        step = next(rt, pass, before, lengths, &mut trace[..most], 0);
        let count = smaller(step.have, most);
        let times = viewer::times_to(&trace[..count], 0, place);
        if times < count / 8 {
            step.before = std::num::wrapping_add_u64(before, times as u64);
            step.have = to_start(trace, times * 8, count);
            return step;
        }
        step.before = std::num::wrapping_add_u64(before, (count / 8) as u64);
        step.have = 0;
        let how = step.how;
        let Ok(Goes::More) = how else {
            return step;
        };
    }
    step
}

// The blocks after it, as long as there is room. It takes no more turns than no run uses up.
fn fill(rt: &impl System, begun: FilledSoFar, lengths: &[u64], trace: &mut [u8]) -> FilledSoFar
    requires { begun.have ≤ length trace.old }
    ensures { result.have ≤ length trace.old }
{
    let mut step = begun;
    for _ in 0..u64::MAX {
        let how = step.how;
        let Ok(Goes::More) = how else {
            return step;
        };
        let pass = step.pass;
        step = next(rt, pass, step.before, lengths, trace, step.have);
    }
    step
}

// The buffer filled from where the ride begins.
pub fn read(
    rt: &impl System,
    start: Start,
    first: usize,
    lengths: &[u64],
    trace: &mut [u8],
) -> FilledSoFar
    ensures { result.have ≤ length trace.old }
{
    match start {
        Start::First => fill(rt, begin(first), lengths, trace),
        Start::At { place, argument: _ } => {
            let begun = begin_at(rt, first, place, lengths, trace);
            fill(rt, begun, lengths, trace)
        }
    }
}
