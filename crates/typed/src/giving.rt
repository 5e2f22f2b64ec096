// What a line gives, by the form of the text.
use lines::TextLine;
use plan_text::Entry;
use trace_text::{Recorded, Said};

// The form of a text: the records of a trace, or the entries of a plan.
#[derive(Clone, Copy)]
pub enum Form {
    Trace,
    Plan,
}

// What is wrong with a line: it is unreadable, or refused by document 01's number.
#[derive(Clone, Copy, PartialEq, Eq)]
pub enum LineWrong {
    Unreadable,
    Refused(u8),
}

// A record, or why there is none.
fn recorded(made: Recorded) -> Result<[u8; 8], LineWrong> {
    let bytes = made.bytes;
    let how = made.how;
    match how {
        trace_text::MakingWent::Made => Ok(bytes),
        trace_text::MakingWent::TooLarge => Err(LineWrong::Refused(2)),
        trace_text::MakingWent::Fifteen => Err(LineWrong::Refused(3)),
    }
}

// What a line of a trace gives.
fn of_trace(said: Said) -> Result<Option<[u8; 8]>, LineWrong> {
    match said {
        Said::Nothing => Ok(None),
        Said::Thing { place, what } => Ok(Some(recorded(trace_text::record_of(place, what))?)),
        Said::Unreadable => Err(LineWrong::Unreadable),
    }
}

// What a line of a plan gives.
fn of_plan(entry: Entry) -> Result<Option<[u8; 8]>, LineWrong> {
    match entry {
        Entry::Nothing => Ok(None),
        Entry::At { place, kind } => Ok(Some(plan_text::entry_of(place, kind))),
        Entry::Unreadable => Err(LineWrong::Unreadable),
    }
}

// The bytes that a line gives, if it gives any.
pub fn of_line(form: Form, line: TextLine) -> Result<Option<[u8; 8]>, LineWrong> {
    match form {
        Form::Trace => of_trace(trace_text::read(line)),
        Form::Plan => of_plan(plan_text::read(line)),
    }
}

// Whether there are too many things: a plan has at most 64.
pub fn are_too_many(form: Form, things: u64) -> bool {
    match form {
        Form::Trace => false,
        Form::Plan => things > 64,
    }
}
