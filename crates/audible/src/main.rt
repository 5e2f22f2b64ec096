// What can never be heard with a sync pair: the figures of every broken telegram, a line each, then
// the numbers, then how many there are.
// Promises: it is safe and it ends; what is broken is said by audibility::sound_of, and the lines
// are those of audibility.
// Specification: none of its own; what cannot be said of a program's writes stands in
// docs/EXCEPTIONS.md.
#![tactic(auto)]

mod list;
mod out;

fn main(rt: HostRuntime) {
    if console::argument_count(&rt) != 3 {
        console::usage(&rt, b"audible", b"audible S S*");
        return;
    }
    let Ok((s, t)) = console::sync_pair(&rt, b"audible", 1) else {
        return;
    };
    let Ok(()) = telegram::good_pair(s, t) else {
        console::refuse_here(&rt, b"audible", 4);
        return;
    };
    list::all(&rt, s, t);
}
