// Text, numbers and words to standard output.

pub fn text(rt: &impl Print, s: &[u8]) {
    let _ = rt.write_all(s);
}

// A number after a text.
pub fn number(rt: &impl Print, s: &[u8], n: u32) {
    text(rt, s);
    let _ = rt.print(n);
}

// A long word, as four hexadecimal digits, after a text.
pub fn long_word(rt: &impl Print, s: &[u8], word: u16) {
    text(rt, s);
    let _ = print!(rt; "{word:04x}");
}

// A short word, as two hexadecimal digits, after a text.
pub fn short_word(rt: &impl Print, s: &[u8], word: u8) {
    text(rt, s);
    let _ = print!(rt; "{word:02x}");
}
