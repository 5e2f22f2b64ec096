// The records of the cards, block by block: in through `accept`, and the lines of the groups out to
// standard output where they are listed; then the end of the ride.
ghost use Rattle.std.specs.Prelude.{◌≡◌};
ghost use Rattle.acceptance_console.specs.SetOut.{set_out};

use acceptance::Acceptance;
use acceptance_text::{Going, Troubles};
use console::System;
use settings::Store;

// A ride compared with a plan so far, and whether that is whole: all reads and writes succeeded.
// Stays as it is: what may not change (set_out, whose definition says `whole`).
#[derive(Clone, Copy)]
pub struct Compared {
    pub going: Going,
    pub whole: bool,
}

// Before the first record: a fresh ride, and a run that has not begun.
pub fn set_out(run: Acceptance) -> Compared
    ensures { result ≡ set_out run }
{
    let ride = ride::fresh();
    Compared {
        going: Going {
            ride,
            run,
            troubles: Troubles {
                faults: 0,
                refused: 0,
            },
        },
        whole: true,
    }
}

// Writes the first bytes of a buffer, if they are listed.
fn put_listed(rt: &impl System, program: &[u8], lists: bool, out: &[u8], count: usize) -> bool {
    if lists {
        return console::put(rt, program, out, count);
    }
    true
}

// Takes the records. Where out has 128 bytes for each of them, one call of `accept` takes them all.
fn take_records(
    rt: &impl System,
    program: &[u8],
    lists: bool,
    from: Compared,
    store: Store,
    records: &[u8],
    out: &mut [u8],
) -> Compared {
    let before = from.going;
    let answer = acceptance_text::accept(before, store, records, out);
    let going = answer.going;
    let progress = answer.progress;
    let Ok(took) = progress else {
        return Compared {
            going,
            whole: false,
        };
    };
    let put = put_listed(rt, program, lists, out, took.bytes);
    Compared {
        going,
        whole: put & (took.records == records.len() / 8),
    }
}

// The end of the ride.
fn finish(rt: &impl System, program: &[u8], lists: bool, from: Compared) -> Compared {
    let before = from.going;
    let mut text = [0u8; 128];
    let finished = acceptance_text::finish(before, &mut text);
    let going = finished.going;
    let ending = finished.ending;
    match ending {
        Ok(bytes) => Compared {
            going,
            whole: put_listed(rt, program, lists, &text, bytes),
        },
        Err(_) => Compared {
            going,
            whole: false,
        },
    }
}

// The records of all cards, whose lengths were kept, as one ride, and its end; or a word of what
// went wrong.
fn over(
    rt: &impl System,
    program: &[u8],
    lists: bool,
    run: Acceptance,
    store: Store,
    first: usize,
    lengths: &[u64],
    block: &mut [u8],
    out: &mut [u8],
) -> Compared {
    let mut stand = set_out(run);
    let went = console::over_cards(rt, first, lengths, block, |records| {
        stand = take_records(rt, program, lists, stand, store, records, out);
        stand.whole
    });
    match went {
        Ok(true) => finish(rt, program, lists, stand),
        Ok(false) => stand,
        Err(failed) => {
            console::say_goes(rt, program, Err(failed));
            let going = stand.going;
            Compared {
                going,
                whole: false,
            }
        }
    }
}

// The ride over the cards from this argument on, whose lengths were kept, compared with a plan.
pub fn compare(
    rt: &impl System,
    program: &[u8],
    lists: bool,
    run: Acceptance,
    store: Store,
    first: usize,
    lengths: &[u64],
    block: &mut [u8],
) -> Compared {
    let mut out = console::room();
    over(
        rt, program, lists, run, store, first, lengths, block, &mut out,
    )
}
