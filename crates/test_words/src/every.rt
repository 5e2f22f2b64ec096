// Every word there is: how many are read, whether each that is read is written back as itself, and
// how many of the refused are odd and even.
use crate::say;
use figures::more;
use words::{NotCode, Parity, TooLarge};

// How many of the words are read, how many of those are written back, and how many of the refused
// ones are odd and even.
#[derive(Clone, Copy)]
struct Tally {
    read: u32,
    back: u32,
    odd: u32,
    even: u32,
}

const NONE: Tally = Tally {
    read: 0,
    back: 0,
    odd: 0,
    even: 0,
};

// One word more that reads, and whether it is written back.
fn read_one(before: Tally, back: bool) -> Tally {
    Tally {
        read: more(before.read, true),
        back: more(before.back, back),
        odd: before.odd,
        even: before.even,
    }
}

// One word more that is refused with 1.
fn refused_one(before: Tally, parity: Parity) -> Tally {
    let is_odd = match parity {
        Parity::Odd => true,
        Parity::Even => false,
    };
    Tally {
        read: before.read,
        back: before.back,
        odd: more(before.odd, is_odd),
        even: more(before.even, !is_odd),
    }
}

// Begins the line of a difference in a long word.
fn begin_long(rt: &impl Print, word: u16, figure: u16) {
    say::long_word(rt, b"difference: long word ", word);
    say::number(rt, b", read ", figure as u32);
}

// Begins that of a difference in a short one.
fn begin_short(rt: &impl Print, word: u8, figure: u8) {
    say::short_word(rt, b"difference: short word ", word);
    say::number(rt, b", read ", figure as u32);
}

// A long word that reads as the figure is written back as itself; if not, a line says so.
fn is_long_back(rt: &impl Print, word: u16, figure: u16) -> bool {
    match words::write_long(figure) {
        Ok(w) => {
            if w != word {
                begin_long(rt, word, figure);
                say::long_word(rt, b", written ", w);
                say::text(rt, b"\n");
            }
            w == word
        }
        Err(TooLarge) => {
            begin_long(rt, word, figure);
            say::text(rt, b", writing refused with 2\n");
            false
        }
    }
}

// A short word that reads as the figure is written back as itself; if not, a line says so.
fn is_short_back(rt: &impl Print, word: u8, figure: u8) -> bool {
    match words::write_short(figure) {
        Ok(w) => {
            if w != word {
                begin_short(rt, word, figure);
                say::short_word(rt, b", written ", w);
                say::text(rt, b"\n");
            }
            w == word
        }
        Err(TooLarge) => {
            begin_short(rt, word, figure);
            say::text(rt, b", writing refused with 2\n");
            false
        }
    }
}

fn long_word(rt: &impl Print, before: Tally, word: u16) -> Tally {
    match words::read_long(word) {
        Ok(figure) => read_one(before, is_long_back(rt, word, figure)),
        Err(NotCode(parity)) => refused_one(before, parity),
    }
}

fn short_word(rt: &impl Print, before: Tally, word: u8) -> Tally {
    match words::read_short(word) {
        Ok(figure) => read_one(before, is_short_back(rt, word, figure)),
        Err(NotCode(parity)) => refused_one(before, parity),
    }
}

fn tell(rt: &impl Print, kind: &[u8], words: u32, t: Tally) {
    say::number(rt, kind, words);
    say::number(rt, b", of which read ", t.read);
    say::number(rt, b", written back ", t.back);
    say::number(rt, b", refused with 1 and odd ", t.odd);
    say::number(rt, b", refused with 1 and even ", t.even);
    say::text(rt, b"\n");
}

fn every_long_word(rt: &impl Print) -> Tally {
    let mut t = NONE;
    for word in 0..=u16::MAX {
        t = long_word(rt, t, word);
    }
    t
}

fn every_short_word(rt: &impl Print) -> Tally {
    let mut t = NONE;
    for word in 0..=u8::MAX {
        t = short_word(rt, t, word);
    }
    t
}

pub fn long_words(rt: &impl Print) {
    tell(rt, b"long words: ", 65536, every_long_word(rt));
}

pub fn short_words(rt: &impl Print) {
    tell(rt, b"short words: ", 256, every_short_word(rt));
}
