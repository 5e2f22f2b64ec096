// The listing of a ride from the cards that the arguments name, in their order: what `checker` and
// `explain` do, each in its style. `list_cards(rt, program, call, reasons)` reads the settings that
// `-s` names (else document 01's gap), goes over the cards twice, once for their lengths and once
// for the records, and writes the lines. A plain listing is document 01's lines and nothing else:
// of what goes wrong the launcher alone is told; with reasons the program says it.
// Promises: it is safe and it ends; the lines are those of the crate ride_text, block by block and
// card by card. What its calls of `list` come to is crates/demands/specs/Sections.antt; what cannot
// be said of a program's reads and writes stands in docs/EXCEPTIONS.md.
#![tactic(auto)]

mod blocks;
mod saying;

use console::{CallWrong, CardsWrong, System};
use settings::Store;

// The lines of the cards from this argument on, whose lengths were kept, by way of a lent block.
// The room for lines is made once: a fresh one for each part of a card would have to be filled with
// zeroes first.
pub fn list_all(
    rt: &impl System,
    program: &[u8],
    reasons: bool,
    store: Store,
    first: usize,
    lengths: &[u64],
    block: &mut [u8],
) {
    let mut out = console::room();
    let size = blocks::size(reasons, block.len());
    blocks::over(
        rt,
        program,
        reasons,
        store,
        first,
        lengths,
        &mut block[..size],
        &mut out,
    );
}

// Goes over the cards twice.
fn go_over(
    rt: &impl System,
    program: &[u8],
    call: &[u8],
    reasons: bool,
    store: Store,
    first: usize,
) {
    let mut lengths = [0u64; 8192];
    let mut block = [0u8; 65536];
    match console::go_over(rt, first, &mut lengths, &mut block) {
        Ok(()) => list_all(rt, program, reasons, store, first, &lengths, &mut block),
        Err(CardsWrong::BadLength(_)) => saying::refuse_trace(rt, program, reasons),
        Err(CardsWrong::NoCard) => saying::usage(rt, program, call, reasons),
        Err(wrong) => saying::say_found(rt, program, reasons, wrong),
    }
}

// The settings that `-s` names, or the gap of document 01; then the cards.
pub fn list_cards(rt: &impl System, program: &[u8], call: &[u8], reasons: bool) {
    match console::options(rt, program, false) {
        Ok(asked) => {
            let store = asked.store;
            go_over(rt, program, call, reasons, store, asked.first);
        }
        Err(CallWrong::Usage) => saying::usage(rt, program, call, reasons),
        Err(CallWrong::Said) => {}
    }
}
