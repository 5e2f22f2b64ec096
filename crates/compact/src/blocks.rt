// The records of the cards, block by block: in through `compact_block`, what is kept out to
// standard output.
use crate::counts;
use compaction::Waiting;
use console::{Stream, System};
use settings::Store;

// Where the trace stands: what waits, how many records came and how many were kept, and whether all
// writes so far succeeded.
#[derive(Clone, Copy)]
struct KeptSoFar {
    waiting: Waiting,
    records: u64,
    kept: u64,
    is_good: bool,
}

// Compacts a block, and writes what is kept of it.
fn write_block(rt: &impl System, from: KeptSoFar, store: Store, block: &mut [u8]) -> KeptSoFar {
    let waiting = from.waiting;
    let records = counts::more(from.records, block.len() / 8);
    let done = compaction::compact_block(waiting, store, block);
    let then = done.waiting;
    let size = done.size;
    let Ok(bytes) = size else {
        return KeptSoFar {
            waiting: then,
            records,
            kept: from.kept,
            is_good: false,
        };
    };
    let is_good = console::write(rt, Stream::Output, block, bytes);
    KeptSoFar {
        waiting: then,
        records,
        kept: counts::more(from.kept, bytes / 8),
        is_good,
    }
}

// Writes the last record, which waits for none, and says the counts.
fn write_last(rt: &impl System, stand: KeptSoFar) {
    let waiting = stand.waiting;
    if !waiting.waits {
        counts::say(rt, stand.records, stand.kept);
        return;
    }
    let bytes = waiting.bytes;
    if rt.write_all(&bytes).is_ok() {
        counts::say(rt, stand.records, counts::more(stand.kept, 1));
        return;
    }
    cannot_write(rt);
}

// That a write failed.
fn cannot_write(rt: &impl System) {
    console::cannot_write(rt, b"compact");
}

// The compacted trace of all records of the cards, whose lengths were kept, as one ride; or what
// failed.
pub fn write_cards(
    rt: &impl System,
    store: Store,
    first: usize,
    lengths: &[u64],
    block: &mut [u8],
) {
    let ride = ride::fresh();
    let mut stand = KeptSoFar {
        waiting: Waiting {
            ride,
            bytes: [0; 8],
            waits: false,
        },
        records: 0,
        kept: 0,
        is_good: true,
    };
    let went = console::over_cards(rt, first, lengths, block, |records| {
        stand = write_block(rt, stand, store, records);
        stand.is_good
    });
    match went {
        Ok(true) => write_last(rt, stand),
        Ok(false) => cannot_write(rt),
        Err(failed) => console::say_goes(rt, b"compact", Err(failed)),
    }
}
