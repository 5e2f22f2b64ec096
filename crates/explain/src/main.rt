// The listing of a ride from the cards that are named, in their order: the checker's lines, each
// fault line with its reason after a colon.
// Promises: it is safe and it ends; the lines are those of the crate ride_text, block by block and
// card by card.
// Specification: none of its own; what cannot be said of a program's reads and writes stands in
// docs/EXCEPTIONS.md.
#![tactic(auto)]

use ride_text::REASONS;

fn main(rt: HostRuntime) {
    ride_console::list_cards(&rt, b"explain", b"explain [-s SETTINGS] CARD..", REASONS);
}
