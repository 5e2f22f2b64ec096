// The words of both codes as a list to pin to the wall: in each line its first figure, then eight
// words in hexadecimal.
// Promises: it is safe and it ends; it reads nothing, so the file stdout beside it is all that it
// can write, and is the printed list.
// Specification: specs/Hex.antt (the digits of a word); the words are those of words::write_short
// and words_list::list.
#![tactic(auto)]

mod hex;
mod listing;

use console::System;

// The word of a figure in the short code.
fn short_word(figure: u8) -> u16 {
    words::write_short(figure).map_or(0, |word| word as u16)
}

// The words of the short code, by figure.
fn short_code() -> [u16; 16] {
    [
        short_word(0),
        short_word(1),
        short_word(2),
        short_word(3),
        short_word(4),
        short_word(5),
        short_word(6),
        short_word(7),
        short_word(8),
        short_word(9),
        short_word(10),
        short_word(11),
        short_word(12),
        short_word(13),
        short_word(14),
        short_word(15),
    ]
}

// Both lists, with an empty line between them, as far as they can be written.
fn write_lists(rt: &impl System) -> bool {
    let short = short_code();
    let long = words_list::list();
    if !listing::put(rt, &short, 2) {
        return false;
    }
    if !listing::text(rt, b"\n") {
        return false;
    }
    listing::put(rt, &long, 0)
}

fn main(rt: HostRuntime) {
    if 1 < console::argument_count(&rt) {
        console::usage(&rt, b"codes", b"codes");
        return;
    }
    if !write_lists(&rt) {
        console::cannot_write(&rt, b"codes");
    }
}
