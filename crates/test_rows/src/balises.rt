// A balise as a group's line writes it, as what was heard: X.Y.Z and 12nN are written by the crate
// `words`, words in hex stand as they are.
ghost use Rattle.std.specs.Prelude.{◌≡◌};
ghost use Rattle.words.specs.Code.{write_long};
ghost use Rattle.test_rows.specs.Balises.{is_sign, sent_as, received_as, word_as, words_of, three_as, number_word, number_as, heard_as};

use crate::spelling;
use group::Heard;
use words::TooLarge;

// Whether a text is this one sign.
fn is_sign(text: &[u8], sign: u8) -> bool
    ensures { result ≡ is_sign text.now sign }
{
    if text.len() != 1 {
        return false;
    }
    text[0] == sign
}

// The short word of the figure that a text spells, if it has one.
fn sent(text: &[u8]) -> Option<u8>
    ensures { result ≡ sent_as text.now }
{
    match words::write_short(spelling::figure(text)) {
        Ok(w) => Some(w),
        Err(TooLarge) => None,
    }
}

// The short word that two hexadecimal digits spell, if they are two.
fn received(text: &[u8]) -> Option<u8>
    ensures { result ≡ received_as text.now }
{
    figures::hex(text)
}

// A word of three, in hex or as a figure.
fn word(text: &[u8], in_hex: bool) -> Option<u8>
    ensures { result ≡ word_as in_hex text.now }
{
    if in_hex {
        return received(text);
    }
    sent(text)
}

// Three words as one balise's, if each is one.
fn words_of(x: Option<u8>, y: Option<u8>, z: Option<u8>) -> Option<Heard>
    ensures { result ≡ words_of x y z }
{
    Some(Heard::Words(x?, y?, z?))
}

// A number balise: its X, and its number as a long word.
fn number_word(x: Option<u8>, n: u16) -> Option<Heard>
    ensures { result ≡ number_word x (write_long n) }
{
    match words::write_long(n) {
        Ok(w) => words_of(x, Some((w / 256) as u8), Some((w % 256) as u8)),
        Err(TooLarge) => None,
    }
}

// The number balise that 12nN writes.
fn number(text: &[u8]) -> Option<Heard>
    ensures { result ≡ number_as text.now }
{
    let x = sent(figures::field(text, b'n', 0));
    match figures::decimal(figures::field(text, b'n', 1), 65535) {
        Ok(n) => number_word(x, n as u16),
        Err(_) => None,
    }
}

// Three words, in hex or as figures, with a sign between two.
fn three(text: &[u8], in_hex: bool, sign: u8) -> Option<Heard>
    ensures { result ≡ three_as in_hex sign text.now }
{
    let x = word(figures::field(text, sign, 0), in_hex);
    let y = word(figures::field(text, sign, 1), in_hex);
    words_of(x, y, word(figures::field(text, sign, 2), in_hex))
}

// What was heard at the balise that a text writes; none where it writes no balise.
pub fn heard_of(text: &[u8]) -> Option<Heard>
    ensures { result ≡ heard_as text.now }
{
    if is_sign(text, b'M') {
        return Some(Heard::Marker);
    }
    if is_sign(text, b'?') {
        return Some(Heard::Unreadable);
    }
    if figures::has(text, b'n') {
        return number(text);
    }
    if figures::has(text, b'/') {
        return three(text, true, b'/');
    }
    three(text, false, b'.')
}
