// What is said where no further line has a word.
ghost use Rattle.std.specs.Prelude.{◌≡◌, map, ◌+◌, ◌≤◌, length};
ghost use Rattle.text.specs.Put.{put, came};
ghost use Rattle.viewer_text.specs.Missing.{visible, no_line};

use text::put;

// A sign as every terminal shows it: one that none shows as a question mark.
fn visible(c: u8) -> u8
    ensures { result ≡ visible c }
{
    if c < 32 {
        return b'?';
    }
    if c > 126 {
        return b'?';
    }
    c
}

// The visible signs of a word into buf from `at` on; the place after them.
fn copy(word: &[u8], buf: &mut [u8], at: usize) -> usize
    requires { at + length word.now ≤ length buf.old }
    ensures { came result buf.new ≡ put (map visible word.now) buf.old at }
{
    for i in 0..word.len() {
        buf[at + i] = visible(word[i]);
    }
    at + word.len()
}

// `no further line has WORD` into buf from `at` on, and the place after it; without room nothing is
// written, and the answer is `at`.
pub fn put_no_line(word: &[u8], buf: &mut [u8], at: usize) -> usize
    ensures { came result buf.new ≡ put (no_line word.now) buf.old at }
{
    if at > buf.len() {
        return at;
    }
    if buf.len() - at < 21 {
        return at;
    }
    if buf.len() - at - 21 < word.len() {
        return at;
    }
    let named = put(b"no further line has ", buf, at);
    let said = copy(word, buf, named);
    put(b"\n", buf, said)
}
