// What a terminal shows in place of what it showed before: the last lines of the ride, where the
// viewer stands, and the records around it.
ghost use Rattle.std.specs.Prelude.{◌≤◌, length};

use crate::going::{end_of, smaller};
use crate::moving::to_start;
use crate::out::put_stand;
use console::System;
use ride::Ride;
use ride_text::REASONS;
use settings::Store;
use viewer::Standing;

// How many lines of the ride are shown, and how many records.
const LINES: usize = 12;

const RECORDS: usize = 6;

// A ride with its last lines at the start of a buffer: its state, and how many bytes they have.
#[derive(Clone, Copy)]
struct LastLines {
    ride: Ride,
    have: usize,
}

// The lines of some records, the first with this number, after those that the buffer has; of them
// all the last are kept.
fn go_on(
    ride: Ride,
    store: Store,
    number: u64,
    records: &[u8],
    buf: &mut [u8],
    have: usize,
) -> LastLines
    requires { have ≤ length buf.old }
    ensures { result.have ≤ length buf.old }
{
    let listed = ride_text::list(REASONS, ride, store, number, records, &mut buf[have..]);
    let done = listed.done;
    let after = listed.ride;
    let Ok(took) = done else {
        return LastLines { ride: after, have };
    };
    let end = have + smaller(took.bytes, buf.len() - have);
    let from = viewer_text::last_lines(&buf[..end], LINES);
    let left = to_start(buf, smaller(from, end), end);
    LastLines {
        ride: after,
        have: left,
    }
}

// The last lines of the ride over the records before the viewer, at the start of the buffer; how
// many bytes they have.
fn last_lines(trace: &[u8], stand: Standing, buf: &mut [u8]) -> usize
    ensures { result ≤ length buf.old }
{
    let to = smaller(stand.number, trace.len() / 8);
    let store = stand.settings;
    let mut ride = ride::fresh();
    let mut have: usize = 0;
    let mut at: usize = 0;
    // Stays as it is: the new form is no plainer, a turn goes on to where `end_of` says.
    while at < to {
        let end = end_of(at, to);
        let first = at as u64 + 1;
        let told = go_on(ride, store, first, &trace[at * 8..end * 8], buf, have);
        ride = told.ride;
        have = told.have;
        at = end;
    }
    have
}

// The same into the page from `at` on, and the place after them.
fn put_last(trace: &[u8], stand: Standing, page: &mut [u8], at: usize) -> usize {
    let mut buf = [0u8; 65536];
    let have = last_lines(trace, stand, &mut buf);
    text::put(&buf[..have], page, at)
}

// The records around the viewer into the page from `at` on, and the place after them.
fn put_around(trace: &[u8], number: usize, page: &mut [u8], at: usize) -> usize {
    let first = viewer_text::first_around(number, trace.len() / 8);
    let mut next = at;
    for k in 0..RECORDS {
        next = put_one(trace, first, k, number, page, next);
    }
    next
}

// The record so many after the first of them.
fn put_one(
    trace: &[u8],
    first: usize,
    k: usize,
    number: usize,
    page: &mut [u8],
    at: usize,
) -> usize {
    if first >= trace.len() {
        return at;
    }
    if k >= RECORDS {
        return at;
    }
    viewer_text::put_beside(trace, first + k, number, page, at)
}

// All that is shown, if it can be written.
pub fn show(rt: &impl System, trace: &[u8], stand: Standing) -> bool {
    let mut page = [0u8; 4096];
    let cleared = text::put(b"\x1b[H\x1b[2J", &mut page, 0);
    let told = put_last(trace, stand, &mut page, cleared);
    let stood = put_stand(trace, stand, &mut page, told);
    let end = put_around(trace, stand.number, &mut page, stood);
    console::put(rt, b"view", &page, end)
}
