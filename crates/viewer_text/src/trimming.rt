// A line without the blanks around it.
ghost use Rattle.std.specs.Prelude.{◌≡◌, length};
ghost use Rattle.viewer_text.specs.Commands.{blank, leading, ends_at};

// Whether a sign is a blank: a space, a tab, or the CR that stands before the newline on some
// machines.
fn is_blank(c: u8) -> bool
    ensures { result ≡ blank c }
{
    (c == 32) | (c == 9) | (c == 13)
}

// Where the first sign stands that is no blank.
pub fn begin(line: &[u8]) -> usize
    ensures { result ≡ leading line.now }
{
    for i in 0..line.len() {
        if !is_blank(line[i]) {
            return i;
        }
    }
    line.len()
}

// Where the last sign ends that is no blank.
pub fn end(line: &[u8]) -> usize
    ensures { result ≡ ends_at (length line.now) line.now }
{
    for n in (0..line.len()).rev() {
        if !is_blank(line[n]) {
            return n + 1;
        }
    }
    0
}
