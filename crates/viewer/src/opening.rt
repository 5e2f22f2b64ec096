// Opening a viewer over a lent trace.
ghost use Rattle.std.specs.Prelude.{◌≡◌};
ghost use Rattle.viewer.specs.Stand.{opened};
ghost use Rattle.viewer.specs.Viewing.{start};
ghost use Rattle.viewer.specs.Says.{says_opening_went, says_opened, slice_of, lent_to};

use crate::{Opened, Standing};
use ride::TraceRefused;
use settings::Store;

// A stand at the first record, with a fresh ride and nothing kept.
fn fresh(store: Store) -> Standing
    ensures { result ≡ opened store }
{
    let ride = ride::fresh();
    let last = [ride; 256];
    Standing {
        number: 0,
        kept: 0,
        ride,
        last,
        settings: store,
    }
}

// Whether a viewer opens: the settings' own refusal, then 16.
fn begins(store: Store, trace: &[u8]) -> Result<(), TraceRefused>
    ensures { says_opening_went result ≡ (start store trace.now).answer }
{
    settings::at(store, 0)?;
    if trace.len() % 8 != 0 {
        return Err(TraceRefused::Length);
    }
    Ok(())
}

// Where a viewer stands that `start` opens over this trace, and how that went.
pub fn start_at(store: Store, trace: &[u8]) -> Opened
    ensures { says_opened result trace.now ≡ start store trace.now }
{
    let begun = begins(store, trace);
    let stand = fresh(store);
    Opened { stand, begun }
}

// The slice that the viewer holds: the very one that is lent, or nothing of it where it is refused.
pub fn seen<'a>(store: Store, trace: &'a [u8]) -> &'a [u8]
    ensures { slice_of (start store trace.now).answer result ≡ lent_to (start store trace.now).answer trace.entry }
{
    let asked = settings::at(store, 0);
    let Ok(_) = asked else {
        return &trace[0..0];
    };
    if trace.len() % 8 != 0 {
        return &trace[0..0];
    }
    trace
}
