// What the arguments ask for.
use console::{CallWrong, System};

// A sync pair, and how many frames there are to each decimetre; the text's file is argument 1.
#[derive(Clone, Copy)]
pub struct TrackCall {
    pub s: u8,
    pub t: u8,
    pub n: u32,
}

// The frames to a decimetre: argument 4, 1 to 1,000; 1 if it is not given.
fn rate(rt: &impl System) -> Result<u32, CallWrong> {
    if console::argument_count(rt) == 4 {
        return Ok(1);
    }
    console::number_in(rt, b"track", b"N", 4, 1, 1000)
}

// The whole call.
pub fn arguments(rt: &impl System) -> Result<TrackCall, CallWrong> {
    let count = console::argument_count(rt);
    if (count != 4) & (count != 5) {
        return Err(CallWrong::Usage);
    }
    let (s, t) = console::sync_pair(rt, b"track", 2)?;
    let n = rate(rt)?;
    Ok(TrackCall { s, t, n })
}
