// A ride as a page to look at, to print and to sign: a strip for each kilometre, then the listing
// as `explain` writes it; with a plan its entries as a row over the strips, and what `accept` says
// at the end.
// Promises: it is safe and it ends; what stands in the strips is that of the crate ride_drawing,
// block by block; the listing is that of ride_text, the verdict that of acceptance_text.
// Specification: none of its own; what cannot be said of a program's reads and writes stands in
// docs/EXCEPTIONS.md.
#![tactic(auto)]

mod page;
mod strips;
mod whole;

use acceptance::Acceptance;
use acceptance_console::Compared;
use console::{CallWrong, NoCards, System};
use settings::Store;

// The line for wrong or missing arguments.
fn usage(rt: &impl System) {
    console::usage(
        rt,
        b"draw",
        b"draw [-s SETTINGS] [-p PLAN TOLERANCE] CARD..",
    );
}

// The ride compared with its plan, where there is one.
fn compare(
    rt: &impl System,
    is_planned: bool,
    run: Acceptance,
    store: Store,
    first: usize,
    lengths: &[u64],
    block: &mut [u8],
) -> Compared {
    if is_planned {
        return acceptance_console::compare(rt, b"draw", false, run, store, first, lengths, block);
    }
    acceptance_console::set_out(run)
}

// Compares the cards, whose lengths were kept, with the plan, and draws.
fn draw_found(
    rt: &impl System,
    is_planned: bool,
    run: Acceptance,
    store: Store,
    first: usize,
    lengths: &[u64],
    block: &mut [u8],
) {
    let compared = compare(rt, is_planned, run, store, first, lengths, block);
    if compared.whole {
        whole::draw_ride(rt, compared, is_planned, store, first, lengths, block);
    }
}

// Goes over the cards for their lengths, and draws.
fn draw_cards(rt: &impl System, is_planned: bool, run: Acceptance, store: Store, first: usize) {
    let mut lengths = [0u64; 8192];
    let mut block = [0u8; 65536];
    match console::find_cards(rt, b"draw", first, &mut lengths, &mut block) {
        Ok(()) => draw_found(rt, is_planned, run, store, first, &lengths, &mut block),
        Err(NoCards::BadLength) => whole::draw_refused(rt),
        Err(NoCards::NoCard) => usage(rt),
        Err(NoCards::Said) => {}
    }
}

// The plan of the argument `file` with the tolerance after it, and a card at least.
fn draw_planned(rt: &impl System, store: Store, file: usize, cards: usize) {
    if console::argument_count(rt) <= cards {
        usage(rt);
        return;
    }
    if let Ok(run) = acceptance_console::plan_of(rt, b"draw", file) {
        draw_cards(rt, true, run, store, cards);
    }
}

// The arguments after the settings: a plan and a tolerance after `-p`, or cards alone.
fn draw(rt: &impl System, store: Store, first: usize) {
    if console::is_option(rt, first, b'p') {
        let file = std::num::wrapping_add_usize(first, 1);
        draw_planned(rt, store, file, std::num::wrapping_add_usize(file, 2));
        return;
    }
    let none = acceptance::plan(b"", 0);
    let run = none.plan;
    draw_cards(rt, false, run, store, first);
}

// The plan before the settings, or all after them.
fn go(rt: &impl System, is_before: bool, store: Store, first: usize) {
    if is_before {
        draw_planned(rt, store, 2, first);
        return;
    }
    draw(rt, store, first);
}

// The settings that `-s` names, or the gap of document 01; then the rest. A plan may stand before
// them.
fn main(rt: HostRuntime) {
    let before = console::is_option(&rt, 1, b'p');
    let at: u8 = if before { 4 } else { 1 };
    match console::options_at(&rt, b"draw", false, at) {
        Ok(asked) => {
            let store = asked.store;
            go(&rt, before, store, asked.first);
        }
        Err(CallWrong::Usage) => usage(&rt),
        Err(CallWrong::Said) => {}
    }
}
