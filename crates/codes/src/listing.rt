// A list of words as lines of eight, to standard output.
use crate::hex;
use console::System;

pub fn text(rt: &impl System, s: &[u8]) -> bool {
    rt.write_all(s).is_ok()
}

// A space and the digits of the word, without the first ones.
fn put_word(rt: &impl System, word: u16, first: usize) -> bool {
    let digits = hex::hex(word);
    if !text(rt, b" ") {
        return false;
    }
    if 4 < first {
        return false;
    }
    text(rt, &digits[first..])
}

// The figure of a word if it begins a line, the word, and the line's end if it closes one.
fn put_at(rt: &impl System, figure: usize, word: u16, first: usize) -> bool {
    if figure % 8 == 0 {
        if rt.print(figure).is_err() {
            return false;
        }
    }
    if !put_word(rt, word, first) {
        return false;
    }
    if figure % 8 == 7 {
        return text(rt, b"\n");
    }
    true
}

// The words, by figure, eight to a line, each without so many of its first digits; as far as they
// can be written.
pub fn put(rt: &impl System, words: &[u16], first: usize) -> bool {
    for (figure, word) in words.iter().enumerate() {
        if !put_at(rt, figure, *word, first) {
            return false;
        }
    }
    true
}
