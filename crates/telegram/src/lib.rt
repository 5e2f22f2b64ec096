// Telegrams of document 01: the sync pair, the three words between two sync words, the places in a
// stretch of bits.
// Promises: a telegram is read whole or refused by its first bad word, and spelt as the words that
// read so; every place of a stretch is found, and no other.
// Specification: specs/Sync.antt, specs/Telegram.antt, specs/Spelling.antt, specs/Stretch.antt,
// specs/Place.antt, specs/Survey.antt, specs/Says.antt (the answers).
// Laws: asked again from the bit after each place until 6, `find` hands out exactly the places of
// the stretch, each once, in order (proofs/Law.antt).
#![tactic(auto)]

ghost use Rattle.std.specs.Prelude.{◌≡◌};
ghost use Rattle.telegram.specs.Stretch.{stretch_of};
ghost use Rattle.telegram.specs.Sync.{good_pair};
ghost use Rattle.telegram.specs.Telegram.{telegram};
ghost use Rattle.telegram.specs.Place.{find};
ghost use Rattle.telegram.specs.Survey.{survey};
ghost use Rattle.telegram.specs.Says.{none_alike, says_pair, says_reach, says_telegram_read, says_found, says_surveyed};

mod after_x;
mod ahead;
mod alike;
mod bits;
mod forty;
mod scan;
mod spelling;
mod stretch;
mod sync;

pub use bits::eight_bytes;
pub use spelling::{NotSpelt, Spelt, spell};
use words::Parity;

// The refusal of sync words that do not differ in exactly seven bits.
#[derive(Clone, Copy, PartialEq, Eq)]
pub struct NotSeven;

// The refusal of a stretch that reaches beyond the lent buffer or is too long.
#[derive(Clone, Copy, PartialEq, Eq)]
pub struct Beyond;

// What a telegram says: three figures, or the number of a number balise.
#[derive(Clone, Copy, PartialEq, Eq)]
pub enum Telegram {
    Figures(u8, u8, u8),
    Number(u16),
}

// The words of a telegram; YZ is Y and Z as one long word.
#[derive(Clone, Copy, PartialEq, Eq)]
pub enum Word {
    X,
    Y,
    Z,
    YZ,
}

// Why three received words are no telegram: which word was bad and why; one that is no code word
// with the parity of its ones.
#[derive(Clone, Copy, PartialEq, Eq)]
pub enum BadWord {
    NotCode(Word, Parity),
    Fifteen(Word),
}

// What the search for single telegrams finds: the first place and its telegram.
#[derive(Clone, Copy, PartialEq, Eq)]
pub struct Found {
    pub place: usize,
    pub telegram: Telegram,
}

// Why the search for single telegrams finds none.
#[derive(Clone, Copy, PartialEq, Eq)]
pub enum NotFound {
    NotSeven,
    Beyond,
    NoPlace,
}

// What the survey of a stretch finds where its places are all alike: their telegram, the first of
// them and their number.
#[derive(Clone, Copy, PartialEq, Eq)]
pub struct Surveyed {
    pub telegram: Telegram,
    pub first: usize,
    pub count: usize,
}

// Why the places of a stretch are not alike: none is found, or two differ.
#[derive(Clone, Copy, PartialEq, Eq)]
pub enum NotAlike {
    NotSeven,
    Beyond,
    NoPlace,
    Differ,
}

impl From<NotFound> for NotAlike {
    ghost from_gives = { λ n e. e ≡ none_alike n };

    fn from(none: NotFound) -> NotAlike {
        match none {
            NotFound::NotSeven => NotAlike::NotSeven,
            NotFound::Beyond => NotAlike::Beyond,
            NotFound::NoPlace => NotAlike::NoPlace,
        }
    }
}

// Whether the sync words S and S* make a good pair: they differ in exactly seven of their eight
// bits; else refusal 4.
pub fn good_pair(s: u8, t: u8) -> Result<(), NotSeven>
    ensures { says_pair result ≡ good_pair s t }
{
    if sync::is_good(s, t) {
        Ok(())
    } else {
        Err(NotSeven)
    }
}

// Whether a stretch is taken: it does not reach beyond the lent buffer, its end has a number of 64
// bits, and it has at most 16,777,216 bits; else refusal 5.
pub fn inside(buf: &[u8], start: usize, len: usize) -> Result<(), Beyond>
    ensures { says_reach result ≡ stretch_of buf.now start len }
{
    if stretch::is_inside(buf, start, len) {
        Ok(())
    } else {
        Err(Beyond)
    }
}

// The telegram that three received words make, X judged before Y and Y before Z; the first bad word
// refuses it with 1 or 3 and is named, with 1 by its parity too.
pub fn read(x: u8, y: u8, z: u8) -> Result<Telegram, BadWord>
    ensures { says_telegram_read result ≡ telegram x y z }
{
    let a = after_x::figure(Word::X, x)?;
    if a == 12 {
        after_x::number(y, z)
    } else {
        after_x::figures(a, y, z)
    }
}

// The first place, with its telegram, of the stretch that begins at bit `start` and has `len` bits;
// or refusal 4, then 5, then 6 if it has none.
pub fn find(buf: &[u8], start: usize, len: usize, s: u8, t: u8) -> Result<Found, NotFound>
    ensures { says_found result ≡ find buf.now start len s t }
{
    if !sync::is_good(s, t) {
        return Err(NotFound::NotSeven);
    }
    if !stretch::is_inside(buf, start, len) {
        return Err(NotFound::Beyond);
    }
    if len < 40 {
        return Err(NotFound::NoPlace);
    }
    scan::first_place(buf, start, start + (len - 39), s, t)
}

// All places of the stretch at once: alike, each with the same X, Y and Z, with the first of them
// and their number; or refusal 4, 5, 6, or 7 if two differ.
pub fn survey(buf: &[u8], start: usize, len: usize, s: u8, t: u8) -> Result<Surveyed, NotAlike>
    ensures { says_surveyed result ≡ survey buf.now start len s t }
{
    let found = find(buf, start, len, s, t)?;
    alike::to_first(buf, found.place, start + (len - 39), s, t, found.telegram)
}
