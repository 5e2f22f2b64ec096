// The leads, piece by piece: in through `list_frames`, out to standard output.
use console::System;
use lead_text::{HowFar, Underway};
use ride::Ride;
use ride_text::REASONS;
use settings::Store;

// Writes the first bytes of a buffer, and says so where that fails.
fn write(rt: &impl System, out: &[u8], count: usize) -> bool {
    console::put(rt, b"live", out, count)
}

// The lines of whole frames, as far as the room goes, and again, until they are used; the ride under
// way after them, if they could be written.
fn piece(
    rt: &impl System,
    from: Underway,
    store: Store,
    frames: &[u8],
    out: &mut [u8],
) -> Option<Underway> {
    let mut underway = from;
    for _ in 0..u64::MAX {
        let written = lead_text::list_frames(underway, store, frames, out);
        let then = written.underway;
        underway = then;
        let how = written.how;
        match how {
            Ok(HowFar::Over(bytes)) => {
                if write(rt, out, bytes) {
                    return Some(underway);
                }
                return None;
            }
            Ok(HowFar::Full(bytes)) => {
                if !write(rt, out, bytes) {
                    return None;
                }
            }
            Err(_) => {
                return None;
            }
        }
    }
    None
}

// The line of a group that the end of the ride closes.
fn write_end(rt: &impl System, ride: Ride, out: &mut [u8]) {
    let bytes = ride_text::put_end(REASONS, ride, out, 0);
    write(rt, out, bytes);
}

// The lines at the leads' end, and those of the ride's.
fn end(rt: &impl System, from: Underway, store: Store, out: &mut [u8]) {
    let written = lead_text::list_end(from, store, out);
    let underway = written.underway;
    let how = written.how;
    let Ok(HowFar::Over(bytes)) = how else {
        return;
    };
    if write(rt, out, bytes) {
        let ride = underway.ride;
        write_end(rt, ride, out);
    }
}

// All leads from this argument on, and the lines of their end.
pub fn all(rt: &impl System, store: Store, first: usize) {
    let mut block = [0u8; 65536];
    let mut out = [0u8; 65536];
    let mut underway = lead_text::fresh();
    let went = leads::over_leads(rt, first, &mut block, |frames| {
        let Some(then) = piece(rt, underway, store, frames, &mut out) else {
            return false;
        };
        underway = then;
        true
    });
    match went {
        Ok(Some(_)) => end(rt, underway, store, &mut out),
        Ok(None) => {}
        Err(failed) => leads::say(rt, b"live", Err(failed)),
    }
}
