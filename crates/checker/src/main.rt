// The listing of a ride from the cards that are named, in their order: document 01's lines, and
// nothing else. With `-s SETTINGS` before the cards the ride goes by the settings of that file,
// else by document 01's gap.
// Promises: it is safe and it ends; the lines are those of the crate ride_text, block by block and
// card by card.
// Specification: none of its own; what its calls of `list` come to is
// crates/demands/specs/Sections.antt, what cannot be said of a program's reads and writes stands in
// docs/EXCEPTIONS.md.
#![tactic(auto)]

use ride_text::PLAIN;

fn main(rt: HostRuntime) {
    ride_console::list_cards(&rt, b"checker", b"checker [-s SETTINGS] CARD..", PLAIN);
}
