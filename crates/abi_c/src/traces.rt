// Traces: made smaller in place.
ghost use Rattle.std.specs.Prelude.{◌≡◌};
ghost use Rattle.ride.specs.State.{fresh_ride};
ghost use Rattle.settings.specs.Store.{plain};
ghost use Rattle.compaction.specs.Compact.{compact};
ghost use Rattle.abi.specs.Face.{returned, itself};

// The new length of the trace, compacted for a fresh ride with this gap (a store of one version; no
// ride looks at its sync pair); -19 or -16.
#[unsafe(no_mangle)]
pub extern "C" fn atc2_compact(gap: u32, trace: &mut [u8]) -> i64
    ensures value { result ≡ returned itself (compact fresh_ride (plain gap) trace.old).answer }
    ensures trace_after { trace.new ≡ (compact fresh_ride (plain gap) trace.old).buffer }
{
    abi::traces::atc2_compact(gap, trace)
}
