// A lead with noise on its line: each bit flips with a chance of N in a million. For showing what
// noise does: it is refused, never mended.
// Promises: it is safe and it ends; the bytes are lead_noise::add_noise's, piece by piece, and
// those after the last whole frame as they came.
// Specification: none of its own; that the pieces join is crates/lead_noise/specs/Laws.antt, what
// cannot be said of a program's reads and writes stands in docs/EXCEPTIONS.md.
#![tactic(auto)]

mod call;
mod pieces;

use console::{CallWrong, System};

// The lead with noise, by way of a block of 65,536 bytes.
fn send(rt: &impl System, seed: u32, chance: u32) {
    let mut block = [0u8; 65536];
    pieces::all(rt, seed, chance, &mut block);
}

fn main(rt: HostRuntime) {
    if console::to_terminal(&rt, b"noise") {
        return;
    }
    match call::arguments(&rt) {
        Ok(call) => send(&rt, call.seed, call.chance),
        Err(CallWrong::Usage) => console::usage(&rt, b"noise", b"noise SEED N [LEAD]"),
        Err(CallWrong::Said) => {}
    }
}
