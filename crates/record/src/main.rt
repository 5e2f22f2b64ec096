// From the bench's lead to a trace: the records of the leads that are named, joined byte after
// byte, on standard output as they come; on standard error the first refused frame, and at the end
// what was counted.
// Promises: it is safe and it ends; what it writes are the records of the crate recording, what it
// says the lines of recording_text, piece by piece.
// Specification: none of its own; what the pieces come to is crates/recording/specs/Laws.antt and
// crates/recording_text/specs/Laws.antt, what cannot be said of a program's reads and writes stands
// in docs/EXCEPTIONS.md.
#![tactic(auto)]

mod out;
mod pieces;

use console::{CallWrong, System};
use settings::Store;

// The records of the leads from this argument on, but not to a terminal.
fn record(rt: &impl System, store: Store, first: usize) {
    if !console::to_terminal(rt, b"record") {
        pieces::all(rt, store, first);
    }
}

fn main(rt: HostRuntime) {
    match leads::options(&rt, b"record", true) {
        Ok(asked) => {
            let store = asked.store;
            record(&rt, store, asked.first);
        }
        Err(CallWrong::Usage) => console::usage(
            &rt,
            b"record",
            b"record S S* [LEAD..], or record -s SETTINGS [LEAD..]",
        ),
        Err(CallWrong::Said) => {}
    }
}
