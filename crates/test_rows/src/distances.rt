// Table DF: a line holds BY, the figure, the cell in metres as the text shows it, and the
// decimetres it means or NA.
use crate::tally::Tally;
use crate::{say, spelling, tally};

// Whether a cell in metres, with or without a tenth after a comma, shows these decimetres.
fn shows(cell: &[u8], dm: u64) -> bool {
    let whole = spelling::spells(figures::field(cell, b',', 0), dm / 10);
    if figures::has(cell, b',') {
        whole & spelling::spells(figures::field(cell, b',', 1), dm % 10)
    } else {
        whole & (dm % 10 == 0)
    }
}

// Whether the cell had to be put right: it does not show what it means.
fn is_put_right(cell: &[u8], means: &[u8]) -> bool {
    match figures::decimal(means, 9999999) {
        Ok(dm) => !shows(cell, dm),
        Err(_) => cell != means,
    }
}

// Begins a line for a distance that is not what the cell means.
fn begin(rt: &impl Print, by: u8, figure: u8) {
    say::number(rt, b"BY ", by as u32);
    say::number(rt, b", figure ", figure as u32);
}

// Whether the distance is what the cell means; if not, a line says so.
fn is_so(rt: &impl Print, by: u8, figure: u8, means: &[u8]) -> bool {
    match group::distance(by, figure) {
        Ok(dm) => {
            let so = spelling::spells(means, dm as u64);
            if !so {
                begin(rt, by, figure);
                say::number(rt, b": ", dm);
                tally::end_line(rt, so, means);
            }
            so
        }
        Err(_) => {
            let so = means == b"NA".as_slice();
            if !so {
                begin(rt, by, figure);
                say::text(rt, b": refused 15");
                tally::end_line(rt, so, means);
            }
            so
        }
    }
}

// One entry, counted. The table goes figure by figure from 0, and for each BY by BY.
pub fn entry(rt: &impl Print, before: Tally, line: &[u8]) -> Tally {
    let by = spelling::figure(figures::field(line, b'\t', 0));
    let figure = spelling::figure(figures::field(line, b'\t', 1));
    if figure as u32 * 15 + by as u32 != before.compared {
        return tally::out_of_place(rt, before, line);
    }
    let cell = figures::field(line, b'\t', 2);
    let means = figures::field(line, b'\t', 3);
    tally::entry(
        before,
        is_put_right(cell, means),
        is_so(rt, by, figure, means),
    )
}
