// A trace made smaller in place: position records that say nothing new are dropped.
// Promises: the ride over what is kept has the same end state and the same lines, but for the
// numbers of refused records; a refusal touches nothing.
// Specification: specs/Dropped.antt (which records are dropped), Compact.antt (a trace, and one in
// blocks), Blocks.antt (what waits between two blocks), Smaller.antt (what is promised of the
// records that are kept), Says.antt (the answers).
#![tactic(auto)]

ghost use Rattle.std.specs.Prelude.{◌≡◌};
ghost use Rattle.compaction.specs.Compact.{compact, compact_block};
ghost use Rattle.compaction.specs.Says.{says_compacted, says_block};

mod copying;
mod deciding;
mod ending;
mod walking;

use ride::{Ride, TraceRefused};
use settings::Store;

// A trace between two blocks: the record that waits for the next one, if one does, and the state
// before it. At first none waits.
#[derive(Clone, Copy)]
pub struct Waiting {
    pub ride: Ride,
    pub bytes: [u8; 8],
    pub waits: bool,
}

// What compacting answers: the state after the trace, and its new length in bytes; or why nothing
// is done.
#[derive(Clone, Copy)]
pub struct Compacted {
    pub ride: Ride,
    pub size: Result<usize, TraceRefused>,
}

// What a block answers: what waits after it, and how many bytes at its start are kept; or why
// nothing is done.
#[derive(Clone, Copy)]
pub struct Block {
    pub waiting: Waiting,
    pub size: Result<usize, TraceRefused>,
}

// The trace, in place, without the position records that were accepted, gave no line and have an
// accepted record after them; all bytes beyond the new length as they were; the state after the
// trace; or the settings' own refusal, then 16, with nothing touched.
pub fn compact(ride: Ride, store: Store, trace: &mut [u8]) -> Compacted
    ensures { says_compacted result trace.new ≡ compact ride store trace.old }
{
    let asked = settings::at(store, 0);
    match asked {
        Err(bad) => Compacted {
            ride,
            size: Err(TraceRefused::Settings(bad)),
        },
        Ok(held) => {
            if trace.len() % 8 != 0 {
                return Compacted {
                    ride,
                    size: Err(TraceRefused::Length),
                };
            }
            ending::whole(ride, store, held, trace)
        }
    }
}

// One block of a trace, after the record that waits from the block before: what is settled as kept
// stands at the block's start, and the last record waits for the next block (after the last block
// it is kept); refusals as above, with nothing touched.
pub fn compact_block(waiting: Waiting, store: Store, block: &mut [u8]) -> Block
    ensures { says_block result block.new ≡ compact_block waiting store block.old }
{
    let asked = settings::at(store, 0);
    match asked {
        Err(bad) => Block {
            waiting,
            size: Err(TraceRefused::Settings(bad)),
        },
        Ok(held) => {
            if block.len() % 8 != 0 {
                return Block {
                    waiting,
                    size: Err(TraceRefused::Length),
                };
            }
            let walked = walking::over(waiting, store, held, block);
            let then = walked.waiting;
            Block {
                waiting: then,
                size: Ok(walked.bytes),
            }
        }
    }
}
