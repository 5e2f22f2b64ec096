// What the program `view` is told and shows: its commands, and where it stands as text.
// Promises: every line is answered; a text is written whole or not at all, and the bytes around it
// stay.
// Specification: specs/Text.antt (what is shown), specs/Commands.antt (the commands),
// specs/Finding.antt (a word in a text), specs/Seeking.antt (the next line of a ride that has it),
// specs/Screen.antt (what a terminal shows beside it), specs/Missing.antt (that no line has it).
#![tactic(auto)]

ghost use Rattle.std.specs.Prelude.{◌≡◌};
ghost use Rattle.text.specs.Put.{put, came};
ghost use Rattle.viewer_text.specs.Text.{state};

mod ahead;
mod commands;
mod finding;
mod missing;
mod screen;
mod seeking;
mod state;
mod trimming;

pub use ahead::put_next;
pub use commands::{Command, read};
pub use finding::has;
pub use missing::put_no_line;
use ride::Ride;
pub use screen::{first_around, last_lines, put_beside};
pub use seeking::seek;

// Where a viewer stands, to the letter, into buf from `at` on, all other bytes as they were, and
// the place after it; without room nothing is written, and the answer is `at`.
pub fn put_state(
    number: usize,
    count: usize,
    kept: usize,
    ride: Ride,
    buf: &mut [u8],
    at: usize,
) -> usize
    ensures { came result buf.new ≡ put (state number count kept ride) buf.old at }
{
    let mut space = [0u8; 384];
    let n = state::put_all(number, count, kept, ride, &mut space, 0);
    text::put(&space[..n], buf, at)
}
