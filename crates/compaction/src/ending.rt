// The end of a trace: the last record waits for none, and is kept.
ghost use Rattle.std.specs.Prelude.{◌≡◌, Ok, true, ◌+◌, ◌≤◌, length};
ghost use Rattle.words.specs.Answer.{gives};
ghost use Rattle.text.specs.Put.{placed};
ghost use Rattle.settings.specs.Versions.{kept};
ghost use Rattle.settings.specs.Store.{judged};
ghost use Rattle.settings.specs.At.{held_at, gap_at};
ghost use Rattle.ride.specs.Joining.{allowed};
ghost use Rattle.ride.specs.Over.{ride_over};
ghost use Rattle.compaction.specs.Blocks.{waiting_record};
ghost use Rattle.compaction.specs.Compact.{bytes_of, smaller_trace};
ghost use Rattle.compaction.specs.Says.{says_compacted};

use crate::copying::put_eight;
use crate::walking::over;
use crate::{Compacted, Waiting};
use ride::Ride;
use settings::{Held, Store};

// The record that waits, if one does, after the bytes that are kept.
fn finish(waiting: Waiting, at: usize, gap: u32, trace: &mut [u8]) -> Compacted
    requires { (allowed gap ≡ true) × ((waiting.waits ≡ true) → at + 8 ≤ length trace.old) }
    ensures ride_value { result.ride ≡ (ride_over (λ odometer. gap) waiting.ride 1 (waiting_record waiting)).ride }
    ensures size_value { result.size ≡ Ok (at + length (bytes_of (waiting_record waiting))) }
    ensures trace_after { trace.new ≡ placed (bytes_of (waiting_record waiting)) trace.old at }
{
    let ride = waiting.ride;
    if !waiting.waits {
        return Compacted { ride, size: Ok(at) };
    }
    let bytes = waiting.bytes;
    put_eight(bytes, trace, at);
    let stepped = ride::step(ride, gap, bytes);
    let after = stepped.ride;
    Compacted {
        ride: after,
        size: Ok(at + 8),
    }
}

// All records of a trace.
pub fn whole(ride: Ride, store: Store, first: Held, trace: &mut [u8]) -> Compacted
    requires { (judged store ≡ gives kept) × (first ≡ held_at store 0) }
    ensures { says_compacted result trace.new ≡ smaller_trace (gap_at store) ride trace.old }
{
    let walked = over(
        Waiting {
            ride,
            bytes: [0; 8],
            waits: false,
        },
        store,
        first,
        trace,
    );
    let waiting = walked.waiting;
    finish(waiting, walked.bytes, walked.gap, trace)
}
