// Lines as text in a lent buffer, and the listing of a trace, plain or with reasons.
// Promises: a line is written with document 01's words to the letter; a listing is the text of the
// ride's lines; with reasons each fault line has after a colon why the group that closed was
// refused, and nothing else is different; bytes around the text stay.
// Specification: specs/Text.antt (the words), Told.antt (a ride told), List.antt (the listing),
// Says.antt (the answers), SameLines.antt (the checker's lines in either style); a text in a buffer
// is `text`'s specs/Put.antt.
#![tactic(auto)]

ghost use Rattle.std.specs.Prelude.{◌≡◌};
ghost use Rattle.text.specs.Put.{put, came};
ghost use Rattle.ride_text.specs.Text.{kind_word, text, line_text};
ghost use Rattle.ride_text.specs.Told.{end_text};
ghost use Rattle.ride_text.specs.List.{list};
ghost use Rattle.ride_text.specs.Says.{says_listed};

mod lines;
mod records;

use group::Group;
use group_rows::Kind;
use ride::{Line, Ride, TraceRefused};
use settings::Store;

// How lines are written: as document 01 has them,
pub const PLAIN: bool = false;

// or each fault line with its reason after a colon.
pub const REASONS: bool = true;

// What a listing took: so many records taken, and bytes written.
#[derive(Clone, Copy)]
pub struct Took {
    pub records: usize,
    pub bytes: usize,
}

// What a listing answers: the state after it, the next record's number, and what it took, or why
// nothing.
#[derive(Clone, Copy)]
pub struct Listed {
    pub ride: Ride,
    pub number: u64,
    pub done: Result<Took, TraceRefused>,
}

// The word for a kind, after its space, into buf from `at` on, all other bytes as they were, and
// the place after it; without room nothing is written, and the answer is `at`.
pub fn put_kind(kind: Kind, buf: &mut [u8], at: usize) -> usize
    ensures { came result buf.new ≡ put (kind_word kind) buf.old at }
{
    match kind {
        Kind::Signal => text::put(b" signal", buf, at),
        Kind::Warning => text::put(b" warning", buf, at),
        Kind::Annulled => text::put(b" annulled", buf, at),
        Kind::Line => text::put(b" line", buf, at),
        Kind::Route => text::put(b" route", buf, at),
    }
}

// The line's text, to the letter, and a newline into buf from `at` on, all other bytes as they
// were, and the place after it; without room nothing is written, and the answer is `at`.
pub fn put_line(line: Line, buf: &mut [u8], at: usize) -> usize
    ensures { came result buf.new ≡ put (text line) buf.old at }
{
    let ride = ride::fresh();
    let none = ride.group;
    put_styled(PLAIN, none, line, buf, at)
}

// The text of a line in a style, where this group closed, likewise: with reasons a fault line has
// after a colon why the group was refused.
pub fn put_styled(reasons: bool, closed: Group, line: Line, buf: &mut [u8], at: usize) -> usize
    ensures { came result buf.new ≡ put (line_text reasons closed line) buf.old at }
{
    let mut space = [0u8; 160];
    let n = lines::put_text(reasons, closed, line, &mut space, 0);
    text::put(&space[..n], buf, at)
}

// The line of a group that the end of the ride closes, in a style, into buf from `at` on, and the
// place after it; without room nothing is written, and the answer is `at`.
pub fn put_end(reasons: bool, ride: Ride, buf: &mut [u8], at: usize) -> usize
    ensures { came result buf.new ≡ put (end_text reasons ride) buf.old at }
{
    let ended = ride::end(ride);
    let closed = ended.closed;
    let given = ended.lines;
    let mut lines = [0u8; 320];
    let n = records::put_lines(reasons, closed, given, &mut lines, 0);
    text::put(&lines[..n], buf, at)
}

// The lines of the trace's records from `number` on, in a style, as text at the start of out, of as
// many records as surely have room, each treated with the gap in force at its own odometer; the
// state, the next number, how many records and bytes; or the settings' own refusal, then 16, with
// nothing taken.
pub fn list(
    reasons: bool,
    ride: Ride,
    store: Store,
    number: u64,
    trace: &[u8],
    out: &mut [u8],
) -> Listed
    ensures { says_listed result out.new ≡ list reasons ride store number trace.now out.old }
{
    let asked = settings::at(store, 0);
    match asked {
        Err(bad) => Listed {
            ride,
            number,
            done: Err(TraceRefused::Settings(bad)),
        },
        Ok(held) => {
            if trace.len() % 8 != 0 {
                return Listed {
                    ride,
                    number,
                    done: Err(TraceRefused::Length),
                };
            }
            records::over(reasons, ride, store, held, number, trace, out)
        }
    }
}
