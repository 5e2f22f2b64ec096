// The depot's acceptance run: a plan of the test track, the cards of a ride, and the report.
// Promises: it is safe and it ends; what it prints is made by the crates acceptance_text and
// acceptance, block by block.
// Specification: none of its own; what cannot be said of a program's reads and writes stands in
// docs/EXCEPTIONS.md.
#![tactic(auto)]

mod report;

use acceptance::Acceptance;
use console::{CallWrong, NoCards, System};
use settings::Store;

// One line of usage.
fn usage(rt: &impl System) {
    console::usage(rt, b"accept", b"accept [-s SETTINGS] PLAN TOLERANCE CARD..");
}

// The ride over the cards from this argument on, taken by a plan, and the report.
fn ride_over(rt: &impl System, store: Store, run: Acceptance, cards: usize) {
    let mut lengths = [0u64; 8192];
    let mut block = [0u8; 65536];
    match console::find_cards(rt, b"accept", cards, &mut lengths, &mut block) {
        Ok(()) => report::accept(rt, store, run, cards, &lengths, &mut block),
        Err(NoCards::BadLength) => console::refuse_trace(rt, b"accept"),
        Err(NoCards::NoCard) => usage(rt),
        Err(NoCards::Said) => {}
    }
}

// The arguments after the settings: the plan, the tolerance, and a card at least.
fn accept(rt: &impl System, store: Store, first: usize) {
    let cards = std::num::wrapping_add_usize(first, 2);
    if console::argument_count(rt) <= cards {
        usage(rt);
        return;
    }
    if let Ok(run) = acceptance_console::plan_of(rt, b"accept", first) {
        ride_over(rt, store, run, cards);
    }
}

fn main(rt: HostRuntime) {
    match console::options(&rt, b"accept", false) {
        Ok(asked) => {
            let store = asked.store;
            accept(&rt, store, asked.first);
        }
        Err(CallWrong::Usage) => usage(&rt),
        Err(CallWrong::Said) => {}
    }
}
