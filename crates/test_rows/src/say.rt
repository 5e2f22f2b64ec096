// Text and numbers to standard output.

pub fn text(rt: &impl Print, s: &[u8]) {
    let _ = rt.write_all(s);
}

// A number after a text.
pub fn number(rt: &impl Print, s: &[u8], n: u32) {
    text(rt, s);
    let _ = rt.print(n);
}
