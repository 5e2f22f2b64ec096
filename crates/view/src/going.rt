// Going as a command asks, and the lines of the records that are passed.
ghost use Rattle.std.specs.Prelude.{◌+◌, ◌/◌, ◌<◌, ◌≤◌};

use console::System;
use ride::Ride;
use ride_text::REASONS;
use settings::Store;
use viewer::{Moved, Standing};

// The smaller of two.
pub fn smaller(a: usize, b: usize) -> usize
    ensures { (result ≤ a) × (result ≤ b) }
{
    if a < b {
        return a;
    }
    b
}

// Where a block ends: 192 records on, for whose lines a large buffer surely has room, and 4,096
// bytes more; or at the last.
pub fn end_of(number: usize, to: usize) -> usize
    requires { number < to }
    ensures { (number < result) × (result ≤ to) }
{
    if to - number > 192 {
        return number + 192;
    }
    to
}

// Writes the lines of some records, the first with this number, in this state; the state after
// them.
fn write_block(
    rt: &impl System,
    ride: Ride,
    store: Store,
    number: u64,
    records: &[u8],
    out: &mut [u8],
) -> Ride {
    let listed = ride_text::list(REASONS, ride, store, number, records, out);
    let done = listed.done;
    let after = listed.ride;
    let Ok(took) = done else {
        return after;
    };
    console::put(rt, b"view", out, took.bytes);
    after
}

// Writes the lines of the records that were passed, from where a viewer stood.
fn write_passed(rt: &impl System, trace: &[u8], from: Standing, number: usize) {
    let to = smaller(number, trace.len() / 8);
    let store = from.settings;
    let mut out = [0u8; 65536];
    let mut ride = from.ride;
    let mut at = from.number;
    // Stays as it is: the new form is no plainer, a turn goes on to where `end_of` says.
    while at < to {
        let end = end_of(at, to);
        let first = at as u64 + 1;
        ride = write_block(rt, ride, store, first, &trace[at * 8..end * 8], &mut out);
        at = end;
    }
}

// Forward so often, and writes the lines of the records that are passed; on a screen they stand
// anyway.
pub fn forth(
    rt: &impl System,
    trace: &[u8],
    from: Standing,
    times: usize,
    on_screen: bool,
) -> Moved {
    let moved = viewer::forwards_at(trace, from, times);
    let stand = moved.stand;
    if !on_screen {
        write_passed(rt, trace, from, stand.number);
    }
    moved
}

// A fresh viewer that has gone so many records forward.
fn afresh(trace: &[u8], from: Standing, times: usize) -> Moved {
    let store = from.settings;
    let opened = viewer::start_at(store, trace);
    let stand = opened.stand;
    viewer::forwards_at(trace, stand, times)
}

// To where so many records lie before the viewer: forward; back as far as the history goes; or,
// further back, as a fresh viewer.
pub fn to_number(
    rt: &impl System,
    trace: &[u8],
    from: Standing,
    before: usize,
    on_screen: bool,
) -> Moved {
    let number = from.number;
    if before >= number {
        return forth(rt, trace, from, before - number, on_screen);
    }
    if number - before <= from.kept {
        return viewer::backs_at(from, number - before);
    }
    afresh(trace, from, before)
}

// To just before the first record at or past the place, but for those that will be refused.
pub fn to_place(
    rt: &impl System,
    trace: &[u8],
    from: Standing,
    place: u64,
    on_screen: bool,
) -> Moved {
    let before = viewer::times_to(trace, 0, place);
    to_number(rt, trace, from, before, on_screen)
}
