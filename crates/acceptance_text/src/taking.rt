// The lines of a record, or of the end, taken one by one: the run after each, what went wrong, and
// the text of a present group.
ghost use Rattle.std.specs.Prelude.{◌≡◌, [], ◌∷◌, ◌+◌, ◌≤◌, length};
ghost use Rattle.words.specs.Answer.{gives};
ghost use Rattle.text.specs.Put.{put, came};
ghost use Rattle.ride.specs.Over.{lines_for};
ghost use Rattle.ride.specs.Says.{says_lines, says_given};
ghost use Rattle.acceptance_text.specs.Taking.{part_line, troubled_by, started, take_all};
ghost use Rattle.acceptance_text.specs.Inside.{is_quiet, written, writes};

use crate::lines::spell_group;
use acceptance::{Acceptance, Role, one_more};
use ride::{Line, Lines, Wrong};

// What went wrong on a ride, counted: how many faults, and how many refused records. The largest
// number of 64 bits stands for that many or more.
#[derive(Clone, Copy)]
pub struct Troubles {
    pub faults: u64,
    pub refused: u64,
}

// What taking some lines leaves: the run, what went wrong so far, and the place in the buffer after
// their text.
#[derive(Clone, Copy)]
pub struct Written {
    pub run: Acceptance,
    pub troubles: Troubles,
    pub next: usize,
}

// The text of a line by its part into buf from `at` on: a present group's line, or nothing.
fn put_part(line: Line, part: Role, buf: &mut [u8], at: usize) -> usize
    requires { at + 64 ≤ length buf.old }
    ensures { came result buf.new ≡ put (part_line line part) buf.old at }
{
    match line {
        Line::Group(seen) => {
            let kind = seen.kind;
            match part {
                Role::NoPart => at,
                Role::Extra => spell_group(seen.place, kind, part, buf, at),
                Role::Wanted(_) => spell_group(seen.place, kind, part, buf, at),
            }
        }
        Line::Fault(_, _) => at,
        Line::Missed(_) => at,
        Line::Record(_, _) => at,
        Line::Trace(_) => at,
    }
}

// What went wrong, after a line.
fn troubled_by(troubles: Troubles, line: Line) -> Troubles
    ensures { result ≡ troubled_by troubles line }
{
    match line {
        Line::Fault(_, _) => Troubles {
            faults: one_more(troubles.faults),
            refused: troubles.refused,
        },
        Line::Record(_, _) => Troubles {
            faults: troubles.faults,
            refused: one_more(troubles.refused),
        },
        Line::Group(_) => troubles,
        Line::Missed(_) => troubles,
        Line::Trace(_) => troubles,
    }
}

// A line taken, and its text put from `at` on.
fn take_line(run: Acceptance, troubles: Troubles, line: Line, buf: &mut [u8], at: usize) -> Written
    requires { at + 64 ≤ length buf.old }
    ensures { written result buf.new ≡ writes (take_all (started run troubles) (line ∷ [])) buf.old at }
{
    let took = acceptance::take(run, line);
    let part = took.answer;
    let next = put_part(line, part, buf, at);
    let after = took.state;
    Written {
        run: after,
        troubles: troubled_by(troubles, line),
        next,
    }
}

// The lines of one record or of the end taken in order, likewise.
pub fn take_lines(
    run: Acceptance,
    troubles: Troubles,
    lines: Lines,
    buf: &mut [u8],
    at: usize,
) -> Written
    requires { at + 128 ≤ length buf.old }
    ensures { written result buf.new ≡ writes (take_all (started run troubles) (says_lines lines)) buf.old at }
{
    match lines {
        Lines::None => Written {
            run,
            troubles,
            next: at,
        },
        Lines::One(one) => take_line(run, troubles, one, buf, at),
        Lines::Two(one, two) => {
            let first = take_line(run, troubles, one, buf, at);
            let after = first.run;
            let wrong = first.troubles;
            take_line(after, wrong, two, buf, first.next)
        }
    }
}

// Whether there is no line.
fn is_none(lines: Lines) -> bool
    ensures { result ≡ is_quiet (gives (says_lines lines)) }
{
    match lines {
        Lines::None => true,
        Lines::One(_) => false,
        Lines::Two(_, _) => false,
    }
}

// Whether a record changes nothing of the run: it was accepted, and gave no line.
pub fn is_quiet(given: Result<Lines, Wrong>) -> bool
    ensures { result ≡ is_quiet (says_given given) }
{
    match given {
        Err(_) => false,
        Ok(lines) => is_none(lines),
    }
}

// What a record gives taken, likewise: its lines; a refused one is counted.
pub fn take_given(
    run: Acceptance,
    troubles: Troubles,
    given: Result<Lines, Wrong>,
    buf: &mut [u8],
    at: usize,
) -> Written
    requires { at + 128 ≤ length buf.old }
    ensures { written result buf.new ≡ writes (take_all (started run troubles) (lines_for 0 (says_given given))) buf.old at }
{
    match given {
        Err(_) => Written {
            run,
            troubles: Troubles {
                faults: troubles.faults,
                refused: one_more(troubles.refused),
            },
            next: at,
        },
        Ok(lines) => take_lines(run, troubles, lines, buf, at),
    }
}
