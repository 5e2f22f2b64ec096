// Tables HS and FS: a line holds the table's name, the figure, the cell in km/h as the text shows
// it, and the km/h it means or `none` for no information.
use crate::tally::Tally;
use crate::{say, spelling, tally};
use group::Told;

// Whether the figure tells what the cell means; if not, a line says so.
fn is_so(rt: &impl Print, figure: u8, means: &[u8]) -> bool {
    match group::speed(figure) {
        Told::Kmh(v) => {
            let so = spelling::spells(means, v as u64);
            if !so {
                say::number(rt, b"figure ", figure as u32);
                say::number(rt, b": ", v as u32);
                tally::end_line(rt, so, means);
            }
            so
        }
        Told::Unknown => {
            let so = means == b"none".as_slice();
            if !so {
                say::number(rt, b"figure ", figure as u32);
                say::text(rt, b": no information");
                tally::end_line(rt, so, means);
            }
            so
        }
    }
}

// One entry, counted. The tables go figure by figure from 0 to 14, one after the other.
pub fn entry(rt: &impl Print, before: Tally, line: &[u8]) -> Tally {
    let figure = spelling::figure(figures::field(line, b'\t', 1));
    if figure as u32 != before.compared % 15 {
        return tally::out_of_place(rt, before, line);
    }
    let cell = figures::field(line, b'\t', 2);
    let means = figures::field(line, b'\t', 3);
    tally::entry(before, cell != means, is_so(rt, figure, means))
}
