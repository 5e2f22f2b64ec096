// Every long word by both readers, by the checks and by the printed list: whether they give the
// same.
use crate::say;
use figures::more;

// Whether both readers give the same for the word; if not, a line says so.
fn is_alike(rt: &impl Print, word: u16) -> bool {
    let alike = words::read_long(word) == words_list::read_long(word);
    if !alike {
        say::long_word(rt, b"difference: long word ", word);
        say::text(rt, b", by the list not as by the checks\n");
    }
    alike
}

// How many of all long words both readers read alike.
fn every_word_alike(rt: &impl Print) -> u32 {
    let mut alike = 0;
    for word in 0..=u16::MAX {
        alike = more(alike, is_alike(rt, word));
    }
    alike
}

pub fn long_words(rt: &impl Print) {
    say::number(
        rt,
        b"long words: 65536, of which read by the list as by the checks ",
        every_word_alike(rt),
    );
    say::text(rt, b"\n");
}
