// The program's files: an entry a line, but for comments, which begin with #.
use crate::tally::Tally;
use crate::{distances, groups, speeds, tally};

#[derive(Clone, Copy)]
pub enum File {
    Distances,
    Speeds,
    Groups,
}

fn is_comment(line: &[u8]) -> bool {
    if line.len() == 0 {
        return false;
    }
    line[0] == b'#'
}

// One line of a file, counted.
fn line(rt: &impl Print, file: File, before: Tally, text: &[u8]) -> Tally {
    if is_comment(text) {
        return before;
    }
    match file {
        File::Distances => distances::entry(rt, before, text),
        File::Speeds => speeds::entry(rt, before, text),
        File::Groups => groups::entry(rt, before, text),
    }
}

// Every line of a file, counted.
fn lines(rt: &impl Print, file: File, text: &[u8]) -> Tally {
    let mut t = tally::none();
    if text.is_empty() {
        return t;
    }
    let whole = text.strip_suffix(b"\n").unwrap_or(text);
    for one in whole.split(|c| *c == b'\n') {
        t = line(rt, file, t, one);
    }
    t
}

// Compares every entry of a file, and tells the counts.
pub fn compare(rt: &impl Print, file: File, text: &[u8]) {
    let t = lines(rt, file, text);
    match file {
        File::Distances => tally::tell_table(rt, b"table DF", t),
        File::Speeds => tally::tell_table(rt, b"tables HS and FS", t),
        File::Groups => tally::tell_groups(rt, t),
    }
}
