// What is counted over table NR, and how it is told.
ghost use Rattle.std.specs.Prelude.{◌≡◌};
ghost use Rattle.test_words.specs.Counting.{no_cells, no_counts, one_more, missed, readable_cell, right_cell, misread_cell, unreadable_cell, any_cell, unknown_line};

use crate::say;
use figures::more;

// How the word of a cell was found: written so, read so by the checks, read so by the list.
#[derive(Clone, Copy)]
pub struct WordFound {
    pub written: bool,
    pub checked: bool,
    pub listed: bool,
}

// The cells of one kind, and how many of them were found so.
#[derive(Clone, Copy)]
pub struct Cells {
    pub all: u32,
    pub written: u32,
    pub checked: u32,
    pub listed: u32,
}

// What was counted. Of the misread ones, what the scan shows was refused by the checks, and is
// absent from the list; `next` is the figure that stands next.
#[derive(Clone, Copy)]
pub struct Counts {
    pub cells: u32,
    pub readable: Cells,
    pub right: Cells,
    pub misread: u32,
    pub refused: u32,
    pub absent: u32,
    pub unreadable: u32,
    pub differences: u32,
    pub next: u32,
}

fn no_cells() -> Cells
    ensures { result ≡ no_cells }
{
    Cells {
        all: 0,
        written: 0,
        checked: 0,
        listed: 0,
    }
}

pub fn none() -> Counts
    ensures { result ≡ no_counts }
{
    Counts {
        cells: 0,
        readable: no_cells(),
        right: no_cells(),
        misread: 0,
        refused: 0,
        absent: 0,
        unreadable: 0,
        differences: 0,
        next: 0,
    }
}

// One cell more of a kind.
fn one_more(cells: Cells, found: WordFound) -> Cells
    ensures { result ≡ one_more cells found }
{
    Cells {
        all: more(cells.all, true),
        written: more(cells.written, found.written),
        checked: more(cells.checked, found.checked),
        listed: more(cells.listed, found.listed),
    }
}

// How often a word was not found as it should be, added to the differences.
fn missed(differences: u32, found: WordFound) -> u32
    ensures { result ≡ missed differences found }
{
    let written = found.written;
    let checked = found.checked;
    let listed = found.listed;
    let unwritten = more(differences, !written);
    let unchecked = more(unwritten, !checked);
    more(unchecked, !listed)
}

// A readable cell, by how its word was found.
pub fn readable(counts: Counts, found: WordFound) -> Counts
    ensures { result ≡ readable_cell counts found }
{
    let mut c = counts;
    let cells = c.readable;
    c.readable = one_more(cells, found);
    c.differences = missed(c.differences, found);
    c
}

// A cell that was put right, by how its word was found.
pub fn right(counts: Counts, found: WordFound) -> Counts
    ensures { result ≡ right_cell counts found }
{
    let mut c = counts;
    let cells = c.right;
    c.right = one_more(cells, found);
    c.differences = missed(c.differences, found);
    c
}

// A cell that the scan misreads, by whether what it shows was refused by the checks and by the
// list.
pub fn misread(counts: Counts, refused: bool, absent: bool) -> Counts
    ensures { result ≡ misread_cell counts refused absent }
{
    let mut c = counts;
    c.misread = more(c.misread, true);
    c.refused = more(c.refused, refused);
    c.absent = more(c.absent, absent);
    c.differences = more(c.differences, !refused);
    c.differences = more(c.differences, !absent);
    c
}

// A cell that shows no word.
pub fn unreadable(counts: Counts) -> Counts
    ensures { result ≡ unreadable_cell counts }
{
    let mut c = counts;
    c.unreadable = more(c.unreadable, true);
    c
}

// A cell of whatever kind, by whether its figure is the next one.
pub fn cell(counts: Counts, figure: u16, isnext: bool) -> Counts
    ensures { result ≡ any_cell counts figure isnext }
{
    let mut c = counts;
    c.cells = more(c.cells, true);
    c.differences = more(c.differences, !isnext);
    c.next = more(figure as u32, true);
    c
}

// A line that is no cell.
pub fn unknown(counts: Counts) -> Counts
    ensures { result ≡ unknown_line counts }
{
    let mut c = counts;
    c.differences = more(c.differences, true);
    c
}

// The cells of one kind; `so` says how the word stands there.
fn tell_cells(rt: &impl Print, kind: &[u8], so: &[u8], cells: Cells) {
    say::number(rt, kind, cells.all);
    say::text(rt, b", of which written");
    say::text(rt, so);
    say::number(rt, b" ", cells.written);
    say::text(rt, b", read");
    say::text(rt, so);
    say::number(rt, b" by the checks ", cells.checked);
    say::number(rt, b", by the list ", cells.listed);
    say::text(rt, b"\n");
}

pub fn tell(rt: &impl Print, c: Counts) {
    let readable = c.readable;
    let right = c.right;
    say::number(rt, b"table NR: ", c.cells);
    say::text(rt, b" cells\n");
    tell_cells(rt, b"readable: ", b" as shown", readable);
    tell_cells(rt, b"put right: ", b" so", right);
    say::number(rt, b"misread by the scan: ", c.misread);
    say::number(
        rt,
        b" of these, what it shows refused with 1 by the checks ",
        c.refused,
    );
    say::number(rt, b", by the list ", c.absent);
    say::number(rt, b"\nunreadable: ", c.unreadable);
    say::number(rt, b"\ndifferences: ", c.differences);
    say::text(rt, b"\n");
}
