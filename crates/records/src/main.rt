// The records of the cards as lines of text, each with its number, to standard output: what `trace`
// reads. It rides over nothing.
// Promises: it is safe and it ends; the lines are those of trace_text.
// Specification: none of its own; the laws are those of the crates lines_laws and trace_text_laws,
// what cannot be said of a program's reads and writes stands in docs/EXCEPTIONS.md.
#![tactic(auto)]

mod blocks;

use console::NoCards;

// Goes over the cards twice: once for their lengths, once for the records.
fn main(rt: HostRuntime) {
    let mut lengths = [0u64; 8192];
    let mut block = blocks::room();
    match console::find_cards(&rt, b"records", 1, &mut lengths, &mut block) {
        Ok(()) => blocks::write_cards(&rt, &lengths, &mut block),
        Err(NoCards::BadLength) => console::refuse_trace(&rt, b"records"),
        Err(NoCards::NoCard) => console::usage(&rt, b"records", b"records CARD.."),
        Err(NoCards::Said) => {}
    }
}
