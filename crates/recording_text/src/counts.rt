// Counting, frame by frame.
ghost use Rattle.std.specs.Prelude.{◌≡◌, ◌+◌, ◌*◌, ◌≤◌, length};
ghost use Rattle.words.specs.Answer.{refuses, pick};
ghost use Rattle.recording.specs.Frame.{odometer_of};
ghost use Rattle.recording_text.specs.Counts.{more, judge_frame, or_first, with_frame, count_frames};

use crate::{Frames, RefusedFrame};

// One more; no count goes above 2^64 - 1.
pub fn more(n: u64) -> u64
    ensures { result ≡ more n }
{
    if n < u64::MAX { n + 1 } else { n }
}

// One more where it is so.
pub fn more_if(holds: bool, n: u64) -> u64
    ensures { result ≡ pick holds (more n) n }
{
    if holds { more(n) } else { n }
}

// The odometer of frame k.
fn odometer(piece: &[u8], k: usize) -> u32
    requires { 16 * k + 16 ≤ length piece.now }
    ensures { result ≡ odometer_of piece.now k }
{
    ride::odometer_at(piece, 2 * k)
}

// The first refused frame, where this one is refused too.
fn or_first(first: Option<RefusedFrame>, frame: u64, number: u8) -> Option<RefusedFrame>
    ensures { result ≡ or_first first frame number }
{
    first.or(Some(RefusedFrame { frame, number }))
}

// One frame more, refused with this number.
fn refused(before: Frames, number: u8) -> Frames
    ensures { result ≡ with_frame before (refuses number) }
{
    let first = before.first;
    let frames = more(before.frames);
    Frames {
        frames,
        refused: more(before.refused),
        first: or_first(first, frames, number),
        odometer: before.odometer,
    }
}

// One frame more, with the odometer given: 18, then 17, or accepted.
fn with_frame(before: Frames, given: u32) -> Frames
    ensures { result ≡ with_frame before (judge_frame before.odometer given) }
{
    if given > 4000000000 {
        return refused(before, 18);
    }
    if given < before.odometer {
        return refused(before, 17);
    }
    let first = before.first;
    Frames {
        frames: more(before.frames),
        refused: before.refused,
        first,
        odometer: given,
    }
}

// All whole frames of a piece.
pub fn over(frames: Frames, piece: &[u8]) -> Frames
    ensures { result ≡ count_frames frames piece.now }
{
    let n = piece.len() / 16;
    let mut counted = frames;
    for k in 0..n {
        counted = with_frame(counted, odometer(piece, k));
    }
    counted
}
