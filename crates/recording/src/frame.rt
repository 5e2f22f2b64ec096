// A frame of the lead: sixteen bytes.
ghost use Rattle.std.specs.Prelude.{◌≡◌, ◌+◌, ◌-◌, ◌*◌, ◌≤◌, ◌<◌, length};
ghost use Rattle.words.specs.Answer.{gives};
ghost use Rattle.antenna.specs.Piece.{first};
ghost use Rattle.antenna.specs.Says.{says_until};
ghost use Rattle.recording.specs.Frame.{line_of, odometer_of, accepted_after};

use antenna::{Ear, Until};

// The odometer of frame k.
pub fn odometer(frames: &[u8], k: usize) -> u32
    requires { 16 * k + 16 ≤ length frames.now }
    ensures { result ≡ odometer_of frames.now k }
{
    let i = 16 * k;
    ((wide(frames[i]) * 256 + wide(frames[i + 1])) * 256 + wide(frames[i + 2])) * 256
        + wide(frames[i + 3])
}

fn wide(x: u8) -> u32
    ensures { (result ≡ x) × (result < 256) }
{
    x as u32
}

// The odometer in force with a frame: its own, unless it is refused with 18 or 17.
pub fn accepted_after(last: u32, given: u32) -> u32
    ensures { result ≡ accepted_after last given }
{
    if given > 4000000000 {
        return last;
    }
    if given < last {
        return last;
    }
    given
}

// The line of frame k from its bit `from` on, heard until something comes.
pub fn hear(ear: Ear, frames: &[u8], k: usize, from: usize, s: u8, t: u8) -> Until
    requires { 16 * k + 16 ≤ length frames.now }
    ensures { says_until result ≡ gives (first (line_of frames.now k) s t ear from (96 - from)) }
{
    if from > 96 {
        return Until::Over(ear);
    }
    let a = 16 * k + 4;
    let e = 16 * k + 16;
    antenna::hear_piece(ear, &frames[a..e], from, 96 - from, s, t)
}
