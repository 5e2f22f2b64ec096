// Compares the crate `group` with tables DF, HS and FS of source 000 and groups worked out from
// document 01, in three files named to it.
// Promises: it is safe and it ends; it writes each answer, a line for each difference, and counts,
// compared with the file stdout beside it.
// Specification: specs/Spelling.antt (the numbers that fields spell), Balises.antt (the balises of
// a row), Answers.antt (what is written of an answer), Counting.antt; the tables as the scan shows
// them, and the groups worked out by hand.
#![tactic(auto)]

mod answers;
mod balises;
mod distances;
mod files;
mod groups;
mod reading;
mod say;
mod speeds;
mod spelling;
mod tally;

use files::File;
use std::rt::{Env, Files};

// Compares each entry of the file that an argument names, and tells the counts.
fn run(rt: &(impl Env + Files + Print), which: usize, file: File) {
    let mut buf = [0u8; 65536];
    let n = reading::read_file(rt, which, &mut buf);
    files::compare(rt, file, &buf[..n]);
}

fn main(rt: HostRuntime) {
    run(&rt, 1, File::Distances);
    run(&rt, 2, File::Speeds);
    run(&rt, 3, File::Groups);
}
