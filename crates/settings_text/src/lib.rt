// The settings as a text (document 02, M-111): a line `PLACE GAP S S*` for each version, with
// comments after `#` and blank lines between.
// Promises: every text is answered; the first bad line decides, and is told by its number; numbers
// that are too large are refused as what they are. Of a text that is not fine there is no store,
// and that of one that is fine is good.
// Specification: specs/Line.antt (what a line states), Taking.antt (a line given to the store),
// Sheet.antt (a whole text), Told.antt (what is said of a bad one); lines and their words are those
// of the crate lines. Demand 1 for `take` and `read`: the crate settings_text_laws.
#![tactic(auto)]

ghost use Rattle.std.specs.Prelude.{◌≡◌};
ghost use Rattle.text.specs.Put.{put, came};
ghost use Rattle.settings_text.specs.Taking.{take_line};
ghost use Rattle.settings_text.specs.Sheet.{is_fine, bad, sheet};
ghost use Rattle.settings_text.specs.Told.{told};

mod line;
mod taking;
mod telling;

use line::Stated;
use lines::TextLine;
use settings::Store;
pub use taking::no_store;

// How a line or a text is: fine, unreadable, of a first place that is not 0, refused with a number
// of the documents, or longer than is read.
#[derive(Clone, Copy)]
pub enum Condition {
    Fine,
    Unreadable,
    FirstPlace,
    Refused(u8),
    TooLong,
}

// What a line leaves: the store, and how the line is.
#[derive(Clone, Copy)]
pub struct Taken {
    pub store: Store,
    pub how: Condition,
}

// What a text comes to: the store that its lines make, none where it is not fine; where a line is
// bad its number, from 1 on, else 0; and how it is.
#[derive(Clone, Copy)]
pub struct Sheet {
    pub store: Store,
    pub line: u32,
    pub how: Condition,
}

// A line given to the store, or to one of no version, which is not opened yet: a blank line or a
// comment leaves it; a version opens it, at place 0 (else that is told), or is added, or is refused
// with 4, 19, 18, 24 or 25. A line that is not fine leaves the store.
pub fn take(store: Store, line: TextLine) -> Taken
    ensures { result ≡ take_line store line }
{
    let stated = line::read_line(line);
    match stated {
        Stated::Nothing => Taken {
            store,
            how: Condition::Fine,
        },
        Stated::Version { place, gap, s, t } => taking::give(store, place, gap, s, t),
        Stated::Unreadable => Taken {
            store,
            how: Condition::Unreadable,
        },
    }
}

// Whether a line or a text is fine.
pub fn is_fine(how: Condition) -> bool
    ensures { result ≡ is_fine how }
{
    match how {
        Condition::Fine => true,
        Condition::Unreadable => false,
        Condition::FirstPlace => false,
        Condition::Refused(_) => false,
        Condition::TooLong => false,
    }
}

// A text that is not fine: no store.
fn bad(line: u32, how: Condition) -> Sheet
    ensures { result ≡ bad line how }
{
    Sheet {
        store: no_store(),
        line,
        how,
    }
}

// The settings of a whole text: the store that its lines make, or the first bad line with its
// number; 19 where there is no version. A text of more than 1,048,576 bytes is too long.
pub fn read(text: &[u8]) -> Sheet
    ensures { result ≡ sheet text.now }
{
    if text.len() > 1048576 {
        return bad(0, Condition::TooLong);
    }
    let mut store = no_store();
    let mut from = lines::begin(text);
    let mut number: u32 = 1;
    loop {
        let got = lines::next_line(lines::fresh(), text, from);
        let line = got.line;
        let taken = take(store, line);
        store = taken.store;
        let how = taken.how;
        if !is_fine(how) {
            return bad(number, how);
        }
        if !got.ends {
            return taking::ended(store);
        }
        from = got.next;
        number += 1;
    }
}

// What is said of a text that is not fine, as `settings line 3 refused 24: WORDS`,
// `settings line 3 unreadable` or `settings refused 19: WORDS`, and a newline into buf from `at`
// on, all other bytes as they were, and the place after it; without room nothing is written, and
// the answer is `at`.
pub fn put_told(line: u32, how: Condition, buf: &mut [u8], at: usize) -> usize
    ensures { came result buf.new ≡ put (told line how) buf.old at }
{
    let mut space = [0u8; 128];
    let n = telling::put_how(line, how, &mut space, 0);
    text::put(&space[..n], buf, at)
}
