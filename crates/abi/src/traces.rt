// Traces: made smaller in place.
ghost use Rattle.std.specs.Prelude.{◌≡◌};
ghost use Rattle.ride.specs.State.{fresh_ride};
ghost use Rattle.settings.specs.Store.{plain};
ghost use Rattle.compaction.specs.Compact.{compact};
ghost use Rattle.abi.specs.Face.{returned, itself};

use ride::TraceRefused;

// The new length of the trace, compacted for a fresh ride with this gap (a store of one version; no
// ride looks at its sync pair); -19 or -16.
pub fn atc2_compact(gap: u32, trace: &mut [u8]) -> i64
    ensures value { result ≡ returned itself (compact fresh_ride (plain gap) trace.old).answer }
    ensures trace_after { trace.new ≡ (compact fresh_ride (plain gap) trace.old).buffer }
{
    let begun = settings::begin(gap, 0x00, 0x7F);
    let store = begun.store;
    let compacted = compaction::compact(ride::fresh(), store, trace);
    let size = compacted.size;
    match size {
        Ok(bytes) => bytes as i64,
        Err(TraceRefused::Settings(_)) => -19,
        Err(TraceRefused::Length) => -16,
    }
}
