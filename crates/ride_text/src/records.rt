// The records of a trace, one after the other.
ghost use Rattle.std.specs.Prelude.{◌≡◌, ◌+◌, ◌≤◌, length};
ghost use Rattle.words.specs.Answer.{gives};
ghost use Rattle.text.specs.Put.{put, came};
ghost use Rattle.settings.specs.Versions.{kept};
ghost use Rattle.settings.specs.Store.{judged};
ghost use Rattle.settings.specs.At.{held_at, gap_at};
ghost use Rattle.ride.specs.Over.{records, lines_for};
ghost use Rattle.ride.specs.Says.{says_wrong, says_lines, says_given};
ghost use Rattle.ride_text.specs.Text.{lines_text};
ghost use Rattle.ride_text.specs.List.{room_for, list_taken};
ghost use Rattle.ride_text.specs.Says.{says_listed};

use crate::lines::put_text;
use crate::{Listed, Took};
use group::Group;
use ride::{Line, Lines, Reply, Ride, Wrong};
use settings::{Held, Store};

// The number of a refusal.
fn refusal(wrong: Wrong) -> u8
    ensures { result ≡ says_wrong wrong }
{
    match wrong {
        Wrong::Malformed => 16,
        Wrong::TooHigh => 18,
        Wrong::TooLow => 17,
    }
}

// The room that the lines of a record may need.
fn room(reasons: bool) -> usize
    ensures { result ≡ room_for reasons }
{
    if reasons {
        return 320;
    }
    128
}

// Lines in order, where this group closed.
pub fn put_lines(reasons: bool, closed: Group, lines: Lines, out: &mut [u8], at: usize) -> usize
    requires { at + room_for reasons ≤ length out.old }
    ensures { came result out.new ≡ put (lines_text reasons closed (says_lines lines)) out.old at }
{
    match lines {
        Lines::None => at,
        Lines::One(a) => put_text(reasons, closed, a, out, at),
        Lines::Two(a, b) => {
            let next = put_text(reasons, closed, a, out, at);
            put_text(reasons, closed, b, out, next)
        }
    }
}

// The lines of the record with this number, by which this group closed: those that it gives, or
// that it was refused.
fn put_given(
    reasons: bool,
    number: u64,
    closed: Group,
    given: Result<Lines, Wrong>,
    out: &mut [u8],
    at: usize,
) -> usize
    requires { at + room_for reasons ≤ length out.old }
    ensures { came result out.new ≡ put (lines_text reasons closed (lines_for number (says_given given))) out.old at }
{
    match given {
        Err(wrong) => {
            put_text(
                reasons,
                closed,
                Line::Record(number, refusal(wrong)),
                out,
                at,
            )
        }
        Ok(lines) => put_lines(reasons, closed, lines, out, at),
    }
}

// The records in turn, up to the last, while there is room for the lines of one more and the next
// number fits. What is held at first is what is in force at place 0. A group that a record closes
// is the one that was open before it.
pub fn over(
    reasons: bool,
    ride: Ride,
    store: Store,
    first: Held,
    number: u64,
    trace: &[u8],
    out: &mut [u8],
) -> Listed
    requires { (judged store ≡ gives kept) × (first ≡ held_at store 0) }
    ensures { says_listed result out.new ≡ list_taken reasons (gap_at store) ride number (records trace.now) out.old }
{
    let count = trace.len() / 8;
    let needed = room(reasons);
    let mut now = ride;
    let mut held = first;
    let mut next = number;
    let mut records: usize = 0;
    let mut bytes: usize = 0;
    while (records < count) & ((out.len() - bytes >= needed) & (next < u64::MAX)) {
        held = ride::held_at(store, held, trace, records);
        let treated = ride::treat_at(now, held.gap, trace, records);
        let reply = treated.reply;
        let Reply::Record(given) = reply else {
            break;
        };
        let group = now.group;
        bytes = put_given(reasons, next, group, given, out, bytes);
        now = treated.ride;
        next += 1;
        records += 1;
    }
    Listed {
        ride: now,
        number: next,
        done: Ok(Took { records, bytes }),
    }
}
