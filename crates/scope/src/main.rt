// What a line holds as a page to look at and to print: each contact as strips of its bits, with the
// words of its telegrams; then the listing as `listen` writes it.
// Promises: it is safe and it ends; contacts are those of the crate antenna, what stands for each
// is that of contact_drawing, lines are those of antenna_text and contact_text, by line_console.
// Specification: none of its own; what cannot be said of a program's reads and writes stands in
// docs/EXCEPTIONS.md.
#![tactic(auto)]

mod page;

use console::{Source, System};

// The argument of the line's file.
const FILE: usize = 1;

// Whether the open file can be gone over from its beginning; if not, that is said.
fn begins(rt: &impl System, file: &mut Source) -> bool {
    if !console::to_start(file) {
        console::only_once(rt, b"scope", FILE);
        return false;
    }
    true
}

// The page of the open file, which is gone over twice.
fn draw(rt: &impl System, file: &mut Source, s: u8, t: u8) {
    if !begins(rt, file) {
        return;
    }
    if !page::put_head(rt) {
        return;
    }
    if !line_console::go_over(rt, b"scope", FILE, file, true, s, t) {
        return;
    }
    if !page::put_listing(rt) {
        return;
    }
    if !begins(rt, file) {
        return;
    }
    if line_console::go_over(rt, b"scope", FILE, file, false, s, t) {
        page::put_foot(rt);
    }
}

// The line named, if the sync pair is good.
fn open(rt: &impl System, s: u8, t: u8) {
    let Ok(()) = telegram::good_pair(s, t) else {
        console::refuse_here(rt, b"scope", 4);
        return;
    };
    let Some(mut file) = console::open_card(rt, FILE) else {
        console::cannot_open(rt, b"scope", FILE);
        return;
    };
    draw(rt, &mut file, s, t);
}

fn main(rt: HostRuntime) {
    if console::argument_count(&rt) != 4 {
        console::usage(&rt, b"scope", b"scope FILE S S*");
        return;
    }
    if let Ok((s, t)) = console::sync_pair(&rt, b"scope", 2) {
        open(&rt, s, t);
    }
}
