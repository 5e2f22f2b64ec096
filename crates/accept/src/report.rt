// The ride compared with its plan, with the lines of its groups, and the report: the entries of the
// plan, then the verdict.
use acceptance::Acceptance;
use console::System;
use settings::Store;

// The entries of the plan, as far as they can be written.
fn put_entries(rt: &impl System, run: Acceptance) -> bool {
    for i in 0..64usize {
        let Some(entry) = acceptance::report(run, i) else {
            break;
        };
        let mut text = [0u8; 128];
        let count = acceptance_text::put_entry(i, entry, &mut text, 0);
        if !put(rt, &text, count) {
            return false;
        }
    }
    true
}

// The first bytes of a text; where they cannot be written it is said and told.
fn put(rt: &impl System, text: &[u8], count: usize) -> bool {
    console::put(rt, b"accept", text, count)
}

// The ride over the cards from this argument on, by a run that has not begun.
pub fn accept(
    rt: &impl System,
    store: Store,
    run: Acceptance,
    first: usize,
    lengths: &[u64],
    block: &mut [u8],
) {
    let compared = acceptance_console::compare(
        rt, b"accept", true, run, store, first, lengths, block,
    );
    if !compared.whole {
        return;
    }
    let going = compared.going;
    let after = going.run;
    if put_entries(rt, after) {
        acceptance_console::put_verdict(rt, b"accept", compared);
    }
}
