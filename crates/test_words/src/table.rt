// Table NR, cell by cell: the word of each is written, and read by the checks and by the printed
// list, as it is shown or as it was put right; what the scan shows in its place is refused by both.
use crate::cells::Cell;
use crate::counts::{Counts, WordFound};
use crate::{cells, counts, say};
use words::{NotCode, TooLarge};

// Begins the line of a difference.
fn begin(rt: &impl Print, figure: u16, word: u16) {
    say::number(rt, b"difference: figure ", figure as u32);
    say::long_word(rt, b", shown ", word);
}

// Whether the figure is written as the word shown; if not, a line says so.
fn is_written(rt: &impl Print, figure: u16, word: u16) -> bool {
    match words::write_long(figure) {
        Ok(w) => {
            if w != word {
                begin(rt, figure, word);
                say::long_word(rt, b", written ", w);
                say::text(rt, b"\n");
            }
            w == word
        }
        Err(TooLarge) => {
            begin(rt, figure, word);
            say::text(rt, b", writing refused with 2\n");
            false
        }
    }
}

// Whether a reader reads the word shown as the figure; if not, a line says so.
fn is_read(rt: &impl Print, figure: u16, word: u16, read: Result<u16, NotCode>, by: &[u8]) -> bool {
    match read {
        Ok(f) => {
            if f != figure {
                begin(rt, figure, word);
                say::text(rt, by);
                say::number(rt, b" read ", f as u32);
                say::text(rt, b"\n");
            }
            f == figure
        }
        Err(NotCode(_)) => {
            begin(rt, figure, word);
            say::text(rt, by);
            say::text(rt, b" refused with 1\n");
            false
        }
    }
}

// Whether a reader refuses the word shown by mistake; if not, a line says so.
fn is_refused(
    rt: &impl Print,
    figure: u16,
    word: u16,
    read: Result<u16, NotCode>,
    by: &[u8],
) -> bool {
    match read {
        Err(NotCode(_)) => true,
        Ok(f) => {
            begin(rt, figure, word);
            say::text(rt, b" by mistake");
            say::text(rt, by);
            say::number(rt, b" read ", f as u32);
            say::text(rt, b"\n");
            false
        }
    }
}

// How the word of a figure is found.
fn find(rt: &impl Print, figure: u16, word: u16) -> WordFound {
    WordFound {
        written: is_written(rt, figure, word),
        checked: is_read(rt, figure, word, words::read_long(word), b", by the checks"),
        listed: is_read(
            rt,
            figure,
            word,
            words_list::read_long(word),
            b", by the list",
        ),
    }
}

// A word that the scan shows by mistake, counted.
fn mistaken(rt: &impl Print, before: Counts, figure: u16, word: u16) -> Counts {
    let by_checks = is_refused(rt, figure, word, words::read_long(word), b", by the checks");
    let by_list = is_refused(
        rt,
        figure,
        word,
        words_list::read_long(word),
        b", by the list",
    );
    counts::misread(before, by_checks, by_list)
}

// Whether the figure is the one that stands next; if not, a line says so.
fn is_next(rt: &impl Print, figure: u16, next: u32) -> bool {
    let f = figure as u32;
    if f != next {
        say::number(rt, b"difference: figure ", f);
        say::number(rt, b" stands where figure ", next);
        say::text(rt, b" belongs\n");
    }
    f == next
}

// One line of the table's file, counted.
fn line(rt: &impl Print, before: Counts, text: &[u8]) -> Counts {
    let Some(found) = cells::read(text) else {
        say::text(rt, b"difference: no cell in the line ");
        say::text(rt, text);
        say::text(rt, b"\n");
        return counts::unknown(before);
    };
    match found {
        Cell::Comment => before,
        Cell::Unreadable(figure) => {
            let c = counts::cell(before, figure, is_next(rt, figure, before.next));
            counts::unreadable(c)
        }
        Cell::Word(figure, word) => {
            let c = counts::cell(before, figure, is_next(rt, figure, before.next));
            counts::readable(c, find(rt, figure, word))
        }
        Cell::Right(figure, word) => {
            let c = counts::cell(before, figure, is_next(rt, figure, before.next));
            counts::right(c, find(rt, figure, word))
        }
        Cell::Misread(figure, wrong, word) => {
            let c = counts::cell(before, figure, is_next(rt, figure, before.next));
            counts::right(mistaken(rt, c, figure, wrong), find(rt, figure, word))
        }
    }
}

// The whole of the table's file.
pub fn compare(rt: &impl Print, text: &[u8]) {
    let mut c = counts::none();
    let lines = text.strip_suffix(b"\n").unwrap_or(text);
    if !text.is_empty() {
        for one in lines.split(|sign| *sign == b'\n') {
            c = line(rt, c, one);
        }
    }
    counts::tell(rt, c);
}
