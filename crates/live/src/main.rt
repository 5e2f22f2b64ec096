// The lines of a ride from the bench's leads, as they come: frames of odometer and line in, the
// lines of `explain` out, each as soon as its group has closed.
// Promises: it is safe and it ends; the lines are those of the crate lead_text, piece by piece, and
// those of the ride's end ride_text's.
// Specification: none of its own; what the pieces come to is crates/lead_text/specs/Live.antt, what
// cannot be said of a program's reads and writes stands in docs/EXCEPTIONS.md.
#![tactic(auto)]

mod riding;

use console::CallWrong;

fn main(rt: HostRuntime) {
    match leads::options(&rt, b"live", false) {
        Ok(asked) => {
            let store = asked.store;
            riding::all(&rt, store, asked.first);
        }
        Err(CallWrong::Usage) => console::usage(
            &rt,
            b"live",
            b"live S S* [LEAD..], or live -s SETTINGS [LEAD..]",
        ),
        Err(CallWrong::Said) => {}
    }
}
