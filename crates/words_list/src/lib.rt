// A second, plain reader for the long code, which a fitter can follow with the printed list.
// Promises: it gives for every word what the reader by checks gives; each word of the list stands
// at its own figure and nowhere else.
// Specification: specs/Listed.antt (the list, and reading by it), specs/Alike.antt (the promises).
#![tactic(auto)]

ghost use Rattle.std.specs.Prelude.{◌≡◌};
ghost use Rattle.words.specs.Code.{read_long};
ghost use Rattle.words.specs.Says.{says_read};
ghost use Rattle.words.specs.Why.{parity};
ghost use Rattle.words_list.specs.Listed.{list};

use words::{NotCode, Parity};

mod table;

// The printed list: at each figure from 0 to 2,047 the long word that is sent for it.
pub fn list() -> [u16; 2048]
    ensures { result ≡ list }
{
    table::WORDS
}

// The figure of sixteen received bits, or refusal 1 with their parity: what `words::read_long`
// promises, word for word. The list is searched from figure 0 on.
pub fn read_long(word: u16) -> Result<u16, NotCode>
    ensures { says_read result ≡ read_long word }
{
    let words = list();
    for figure in 0..2048 {
        if words[figure as usize] == word {
            return Ok(figure);
        }
    }
    Err(NotCode(parity(word)))
}

// Whether the ones of a long word are odd or even in number.
fn parity(word: u16) -> Parity
    ensures { result ≡ parity 16 word }
{
    if u16::count_ones(word) % 2 == 0 {
        Parity::Even
    } else {
        Parity::Odd
    }
}
