// From the text of a track to the lead that a bench riding over it would give, to standard output.
// Promises: it is safe and it ends; the frames are track_lead::write's, block by block and thing by
// thing; nothing is written of a text that is refused.
// Specification: none of its own; what the frames come to is crates/track_lead/specs/Laws.antt,
// what cannot be said of a program's reads and writes stands in docs/EXCEPTIONS.md.
#![tactic(auto)]

mod call;
mod going;
mod saying;
mod taking;

use call::TrackCall;
use console::{CallWrong, System};
use telegram::NotSeven;

// Goes over the text twice: once for what is refused, once for the frames.
fn feed(rt: &impl System, call: TrackCall) {
    let mut block = [0u8; 65536];
    let mut out = [0u8; 65536];
    going::twice(rt, call, &mut block, &mut out);
}

// The pair is judged before the text.
fn answer(rt: &impl System, call: TrackCall) {
    match telegram::good_pair(call.s, call.t) {
        Ok(()) => feed(rt, call),
        Err(NotSeven) => console::refuse(rt, b"track", 4),
    }
}

fn main(rt: HostRuntime) {
    if console::to_terminal(&rt, b"track") {
        return;
    }
    match call::arguments(&rt) {
        Ok(call) => answer(&rt, call),
        Err(CallWrong::Usage) => console::usage(&rt, b"track", b"track FILE S S* [N]"),
        Err(CallWrong::Said) => {}
    }
}
