// The cards gone over for their lengths. A name that is too long counts as a card that cannot be
// opened.
ghost use Rattle.std.specs.Prelude.{◌+◌, ◌≤◌, length};

use crate::arguments::{argument_count, is_input};
use crate::progress::{Far, not_begun, wipe};
use crate::reading::length_of;
use crate::system::{Source, System};
use std::fs::File;
use std::io::{Seek, SeekFrom};

// What is wrong with the cards: there is none; there are more of them than lengths are kept; or the
// number of the argument whose card cannot be opened, cannot be read, has a length that is no
// multiple of 8, or cannot be gone over a second time.
#[derive(Clone, Copy, PartialEq, Eq)]
pub enum CardsWrong {
    NoCard,
    TooMany,
    CannotOpen(usize),
    CannotRead(usize),
    BadLength(usize),
    Once(usize),
}

// One card: how many bytes it has, and whether it can be gone over again.
#[derive(Clone, Copy)]
struct Card {
    bytes: u64,
    is_again: bool,
}

// Opens the file of this name; none where that cannot be done. A name that is no text in UTF-8 is
// none that std opens.
fn open_named(rt: &impl System, name: &[u8]) -> Option<Source> {
    let Ok(path) = str::from_utf8(name) else {
        return None;
    };
    match File::open(rt, path) {
        Ok(file) => Some(Source::Opened(file)),
        Err(_) => None,
    }
}

// Opens the file that the argument with this number names, or standard input for the name `-`; none
// where that cannot be done.
pub fn open_card(rt: &impl System, number: usize) -> Option<Source> {
    if is_input(rt, number) {
        return open_named(rt, b"/dev/stdin");
    }
    let mut path = [0u8; 4096];
    let Ok(length) = rt.arg(number, &mut path) else {
        return None;
    };
    open_named(rt, &path[..length])
}

// Whether a file stands at its beginning again; standard input as it was given is not asked.
pub fn to_start(from: &mut Source) -> bool {
    match from {
        Source::Opened(file) => match file.seek(SeekFrom::Start(0)) {
            Ok(at) => at == 0,
            Err(_) => false,
        },
        Source::Given => false,
    }
}

// Goes over a card for its length; how far the work is goes on.
fn measure(
    rt: &impl System,
    number: usize,
    block: &mut [u8],
    far: &mut Far,
) -> Result<Card, CardsWrong> {
    let Some(mut file) = open_card(rt, number) else {
        return Err(CardsWrong::CannotOpen(number));
    };
    let length = length_of(rt, &mut file, block, far);
    let is_again = to_start(&mut file);
    let Some(bytes) = length else {
        return Err(CardsWrong::CannotRead(number));
    };
    Ok(Card { bytes, is_again })
}

// How many cards are named from this argument on; none where there are more than that many, or than
// a million, which no command line has.
pub fn named(rt: &impl System, first: usize, most: usize) -> usize
    ensures { (result ≤ most) × (first + result ≤ 18446744073709551615) × (result ≤ 1000000) }
{
    let words = argument_count(rt);
    if words <= first {
        return 0;
    }
    let count = words - first;
    if count > most {
        return 0;
    }
    if count > 1000000 {
        return 0;
    }
    count
}

// Why no card is gone over: none is named, or too many are.
fn none_named(rt: &impl System, first: usize) -> CardsWrong {
    if argument_count(rt) <= first {
        return CardsWrong::NoCard;
    }
    CardsWrong::TooMany
}

// The number of the first card of which something is so, if there is one.
fn noted(before: Option<usize>, number: usize, is_so: bool) -> Option<usize> {
    if before.is_none() & is_so {
        return Some(number);
    }
    before
}

// What cards come to that could all be read.
fn judged(bad: Option<usize>, once: Option<usize>) -> Result<(), CardsWrong> {
    if let Some(number) = bad {
        return Err(CardsWrong::BadLength(number));
    }
    if let Some(number) = once {
        return Err(CardsWrong::Once(number));
    }
    Ok(())
}

// Goes over so many cards for their lengths, and keeps them; how far the work is goes on.
fn go_over_all(
    rt: &impl System,
    first: usize,
    count: usize,
    lengths: &mut [u64],
    block: &mut [u8],
    far: &mut Far,
) -> Result<(), CardsWrong>
    requires { (count ≤ length lengths.old) × (first + count ≤ 18446744073709551615) × (count ≤ 1000000) }
{
    let mut bad = None;
    let mut once = None;
    for i in 0..count {
        let number = first + i;
        let card = measure(rt, number, block, far)?;
        bad = noted(bad, number, card.bytes % 8 != 0);
        once = noted(once, number, !card.is_again);
        lengths[i] = card.bytes;
    }
    judged(bad, once)
}

// Goes over all cards for their lengths, and keeps them. One that cannot be opened or read decides
// before one of a bad length, and that before one that cannot be gone over again; among equals the
// first.
pub fn go_over(
    rt: &impl System,
    first: usize,
    lengths: &mut [u64],
    block: &mut [u8],
) -> Result<(), CardsWrong> {
    let count = named(rt, first, lengths.len());
    if count == 0 {
        return Err(none_named(rt, first));
    }
    let mut far = not_begun();
    let found = go_over_all(rt, first, count, lengths, block, &mut far);
    wipe(rt, far);
    found
}
