// A ride looked at step by step, forward and back: commands from standard input, a line each, and
// where the viewer stands after each; on a terminal as a screen that each command replaces.
// Promises: it is safe and it ends; where it stands, the lines, the commands and where a word is
// found are those of the crates viewer, ride_text, trace_text and viewer_text.
// Specification: none of its own; what cannot be said of a program's reads and writes stands in
// docs/EXCEPTIONS.md.
#![tactic(auto)]

ghost use Rattle.std.specs.Prelude.{◌≤◌};

mod going;
mod input;
mod memory;
mod moving;
mod opening;
mod out;
mod reading;
mod screen;
mod session;

use console::{CallWrong, CardsWrong, Said, StoreOf, System};
use reading::Start;
use settings::Store;

// The line for wrong or missing arguments.
fn usage(rt: &impl System) {
    console::usage(rt, b"view", b"view [-from PLACE] [-s SETTINGS] CARD..");
}

// Looks at the cards from this argument on, under these settings, from where the ride begins.
fn look(rt: &impl System, store: Store, start: Start, first: usize) {
    let mut lengths = [0u64; 8192];
    let mut block = [0u8; 65536];
    match console::go_over(rt, first, &mut lengths, &mut block) {
        Ok(()) => opening::open(rt, store, start, first, &lengths),
        Err(CardsWrong::BadLength(_)) => console::refuse_trace(rt, b"view"),
        Err(CardsWrong::NoCard) => usage(rt),
        Err(wrong) => console::say_found(rt, b"view", Err(wrong)),
    }
}

// Whether this argument is `-from`.
fn is_from(rt: &impl System, at: usize) -> bool {
    let mut text = [0u8; 4096];
    let Ok(length) = rt.arg(at, &mut text) else {
        return false;
    };
    is_word(&text[..length])
}

// Whether a word is `-from`.
fn is_word(word: &[u8]) -> bool {
    if word.len() != 5 {
        return false;
    }
    viewer_text::has(word, b"-from")
}

// Where the ride begins by this argument, the place after `-from`; where it is missing or no figure
// that is said.
fn begins(rt: &impl System, argument: usize) -> Result<Start, Said> {
    if console::argument_count(rt) <= argument {
        usage(rt);
        return Err(Said);
    }
    let place = console::figure(rt, b"view", b"PLACE", argument, u64::MAX)?;
    Ok(Start::At { place, argument })
}

// The cards from this argument on, after the settings; `-from PLACE` may stand before them, where
// it did not stand before the settings.
fn after_settings(rt: &impl System, store: Store, start: Start, first: usize)
    requires { first ≤ 257 }
{
    let Start::First = start else {
        look(rt, store, start, first);
        return;
    };
    if !is_from(rt, first) {
        look(rt, store, start, first);
        return;
    }
    let Ok(later) = begins(rt, first + 1) else {
        return;
    };
    look(rt, store, later, first + 2);
}

// The settings from this argument on, if there are any, and then the cards.
fn go_on(rt: &impl System, start: Start, at: u8) {
    match console::options_at(rt, b"view", false, at) {
        Ok(asked) => {
            let store = asked.store;
            let of = asked.of;
            match of {
                StoreOf::Plain => look(rt, store, start, asked.first),
                StoreOf::Settings => after_settings(rt, store, start, asked.first),
            }
        }
        Err(CallWrong::Usage) => usage(rt),
        Err(CallWrong::Said) => {}
    }
}

// `-from PLACE` and the settings, in either order, if they are asked for; then the cards.
fn main(rt: HostRuntime) {
    if !is_from(&rt, 1) {
        go_on(&rt, Start::First, 1);
        return;
    }
    let Ok(start) = begins(&rt, 2) else {
        return;
    };
    go_on(&rt, start, 3);
}
