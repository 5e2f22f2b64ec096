// A word in a text, capitals or not.
ghost use Rattle.std.specs.Prelude.{◌≡◌, ◌+◌, ◌≤◌, length};
ghost use Rattle.viewer_text.specs.Finding.{small, stands_at, has};

// The small letter of a capital; any other sign as it is.
pub fn small(c: u8) -> u8
    ensures { result ≡ small c }
{
    if c < 65 {
        return c;
    }
    if c > 90 {
        return c;
    }
    c + 32
}

// Whether a word stands in a text from a place on.
fn stands_at(text: &[u8], at: usize, word: &[u8]) -> bool
    requires { at + length word.now ≤ length text.now }
    ensures { result ≡ stands_at text.now at word.now (length word.now) }
{
    for k in (0..word.len()).rev() {
        if small(text[at + k]) != small(word[k]) {
            return false;
        }
    }
    true
}

// Whether a text has a word, whichever letters are capitals.
pub fn has(text: &[u8], word: &[u8]) -> bool
    ensures { result ≡ has text.now word.now }
{
    if word.len() > text.len() {
        return false;
    }
    for n in (0..text.len() - word.len() + 1).rev() {
        if stands_at(text, n, word) {
            return true;
        }
    }
    false
}
