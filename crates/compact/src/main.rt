// The compacted trace of the cards that are named, as one ride, to standard output; on standard
// error how many records it had and how many are kept.
// Promises: it is safe and it ends; what is kept is compaction::compact_block's, block by block and
// card by card.
// Specification: specs/Counting.antt for its counts; what the blocks come to is
// crates/compaction_laws/specs/Blocks.antt, what cannot be said of a program's reads and writes
// stands in docs/EXCEPTIONS.md.
#![tactic(auto)]

mod blocks;
mod counts;

use console::{CallWrong, NoCards, System};
use settings::Store;

// How it is called.
fn usage(rt: &impl System) {
    console::usage(rt, b"compact", b"compact [-s SETTINGS] CARD..");
}

// Goes over the cards twice: once for their lengths, once for the records. Nothing is written
// before all of them can be read and have whole records.
fn go_over(rt: &impl System, store: Store, first: usize) {
    let mut lengths = [0u64; 8192];
    let mut block = [0u8; 65536];
    match console::find_cards(rt, b"compact", first, &mut lengths, &mut block) {
        Ok(()) => {
            if !console::to_terminal(rt, b"compact") {
                blocks::write_cards(rt, store, first, &lengths, &mut block);
            }
        }
        Err(NoCards::BadLength) => console::refuse(rt, b"compact", 16),
        Err(NoCards::NoCard) => usage(rt),
        Err(NoCards::Said) => {}
    }
}

fn main(rt: HostRuntime) {
    match console::options(&rt, b"compact", true) {
        Ok(asked) => {
            let store = asked.store;
            go_over(&rt, store, asked.first);
        }
        Err(CallWrong::Usage) => usage(&rt),
        Err(CallWrong::Said) => {}
    }
}
