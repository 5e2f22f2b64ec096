// What a line holds, recorded or as it comes: a line of text for each contact as soon as it has
// closed, in the order heard.
// Promises: it is safe and it ends; contacts are those of the crate antenna, lines those of
// antenna_text and contact_text, piece by piece, by line_console.
// Specification: none of its own; what the pieces come to is crates/antenna_text_laws, what cannot
// be said of a program's reads and writes stands in docs/EXCEPTIONS.md.
#![tactic(auto)]

use console::{Source, System, is_input};

// The argument of the line's file.
const FILE: usize = 1;

// The contacts of the open file, if the sync pair is good.
fn listen(rt: &impl System, from: &mut Source, s: u8, t: u8) {
    let Ok(()) = telegram::good_pair(s, t) else {
        console::refuse_here(rt, b"listen", 4);
        return;
    };
    line_console::go_over(rt, b"listen", FILE, from, false, s, t);
}

// The line named, with the sync words given.
fn open(rt: &impl System, s: u8, t: u8) {
    if is_input(rt, FILE) {
        listen(rt, &mut Source::Given, s, t);
        return;
    }
    let Some(mut file) = console::open_card(rt, FILE) else {
        console::cannot_open(rt, b"listen", FILE);
        return;
    };
    listen(rt, &mut file, s, t);
}

fn main(rt: HostRuntime) {
    if console::argument_count(&rt) != 4 {
        console::usage(&rt, b"listen", b"listen FILE S S*");
        return;
    }
    if let Ok((s, t)) = console::sync_pair(&rt, b"listen", 2) {
        open(&rt, s, t);
    }
}
