// A line of table NR's file: the figure, a tab, the cell as the scan shows it, a tab, and the four
// hexadecimal digits read off the cell or `-`; of a cell that was put right, a tab, the four digits
// put right, a tab, and why. A line that begins with # is a comment.
ghost use Rattle.std.specs.Prelude.{◌≡◌};
ghost use Rattle.test_words.specs.Lines.{begins, word_by, shown_by, held_by, righted, columns_of, cell_of};

// What a line holds: a figure with the word that its cell shows; one whose cell shows no word, with
// the word put right; one whose cell shows a wrong word, with that word and the word put right; one
// whose cell is unreadable; or a comment.
#[derive(Clone, Copy)]
pub enum Cell {
    Word(u16, u16),
    Right(u16, u16),
    Misread(u16, u16, u16),
    Unreadable(u16),
    Comment,
}

// What was read off a cell: a word, or that it is unreadable.
#[derive(Clone, Copy)]
pub enum Shown {
    Word(u16),
    Unreadable,
}

// Whether a text begins with the sign.
fn begins(text: &[u8], sign: u8) -> bool
    ensures { result ≡ begins text.now sign }
{
    if 0 < text.len() {
        return text[0] == sign;
    }
    false
}

// The word that four hexadecimal digits spell.
fn word(text: &[u8]) -> Option<u16>
    ensures { result ≡ word_by text.now }
{
    if text.len() != 4 {
        return None;
    }
    let y = figures::hex(&text[0..2])?;
    let z = figures::hex(&text[2..4])?;
    Some(y as u16 * 256 + z as u16)
}

// What was read off a cell; none where it is neither.
fn read_off(text: &[u8]) -> Option<Shown>
    ensures { result ≡ shown_by text.now }
{
    if (text.len() == 1) & begins(text, b'-') {
        return Some(Shown::Unreadable);
    }
    let word = word(text)?;
    Some(Shown::Word(word))
}

// What the cell of a figure holds, by what was read off it.
fn held(figure: u16, off: Shown) -> Cell
    ensures { result ≡ held_by figure off }
{
    match off {
        Shown::Word(word) => Cell::Word(figure, word),
        Shown::Unreadable => Cell::Unreadable(figure),
    }
}

// What the cell of a figure holds that was put right to this word, by what was read off it.
fn righted(figure: u16, off: Shown, word: u16) -> Cell
    ensures { result ≡ righted figure off word }
{
    match off {
        Shown::Word(wrong) => Cell::Misread(figure, wrong, word),
        Shown::Unreadable => Cell::Right(figure, word),
    }
}

// What the cell of a figure holds, by the columns after the cell; none where they say nothing.
fn columns(figure: u16, line: &[u8]) -> Option<Cell>
    ensures { result ≡ columns_of figure line.now }
{
    let off = read_off(figures::field(line, b'\t', 2))?;
    let right = figures::field(line, b'\t', 3);
    let why = figures::field(line, b'\t', 4);
    if right.len() == 0 {
        return Some(held(figure, off));
    }
    if why.len() == 0 {
        return None;
    }
    let word = word(right)?;
    Some(righted(figure, off, word))
}

// What a line holds; none where it is neither a cell nor a comment.
pub fn read(line: &[u8]) -> Option<Cell>
    ensures { result ≡ cell_of line.now }
{
    if begins(line, b'#') {
        return Some(Cell::Comment);
    }
    match figures::decimal(figures::field(line, b'\t', 0), 2047) {
        Ok(n) => columns(n as u16, line),
        Err(_) => None,
    }
}
