// Compares the two codes and the printed list with table NR of source 000, whose file is its first
// argument, every word with itself, and every long word as the list reads it with what the checks
// read.
// Promises: it is safe and it ends; it writes its counts and a line for each difference, compared
// with the file stdout beside it.
// Specification: specs/Lines.antt (a line of the table's file), specs/Counting.antt; the table as
// the scan shows it.
#![tactic(auto)]

mod alike;
mod cells;
mod counts;
mod every;
mod reading;
mod say;
mod table;

use std::rt::{Env, Files};

// Compares the table in the file that the first argument names, as far as one buffer holds it.
fn compare_file(rt: &(impl Env + Files + Print)) {
    let mut buf = [0u8; 65536];
    let Some(n) = reading::read_file(rt, 1, &mut buf) else {
        say::text(rt, b"table NR cannot be opened\n");
        return;
    };
    table::compare(rt, &buf[..n]);
}

fn main(rt: HostRuntime) {
    compare_file(&rt);
    every::long_words(&rt);
    every::short_words(&rt);
    alike::long_words(&rt);
}
