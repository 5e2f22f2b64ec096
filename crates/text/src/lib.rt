// Text in a lent buffer: bytes, and numbers in decimal.
// Promises: a text is written whole or not at all, and the bytes around it stay; no call needs room
// that it does not test for.
// Specification: specs/Text.antt (texts and numbers), specs/Put.antt (a text in a buffer).
#![tactic(auto)]

ghost use Rattle.std.specs.Prelude.{◌≡◌, ◌++◌};
ghost use Rattle.text.specs.Text.{decimal};
ghost use Rattle.text.specs.Put.{put, came};

mod pieces;

// The bytes into buf from `at` on, all others as they were, and the place after them; without room
// nothing is written, and the answer is `at`.
pub fn put(bytes: &[u8], buf: &mut [u8], at: usize) -> usize
    ensures { came result buf.new ≡ put bytes.now buf.old at }
{
    if at > buf.len() {
        return at;
    }
    if bytes.len() > buf.len() - at {
        return at;
    }
    pieces::copy(bytes, buf, at)
}

// Words and then a number in decimal into buf from `at` on, all other bytes as they were, and the
// place after them; without room nothing is written, and the answer is `at`.
pub fn put_number(words: &[u8], n: u64, buf: &mut [u8], at: usize) -> usize
    ensures { came result buf.new ≡ put (words.now ++ decimal n) buf.old at }
{
    if at > buf.len() {
        return at;
    }
    if words.len() > buf.len() - at {
        return at;
    }
    let count = pieces::places(n);
    if count > buf.len() - at - words.len() {
        return at;
    }
    let next = pieces::copy(words, buf, at);
    pieces::spell(n, buf, next, next + count)
}
