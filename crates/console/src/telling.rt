// What a program says of its cards, on standard error.
use crate::arguments::is_input;
use crate::goes::{Goes, PassFailed};
use crate::lengths::{CardsWrong, go_over};
use crate::saying::{fail, fail_of, fail_with};
use crate::system::System;

// `PROGRAM: cannot open FILE`, for the file that the argument with this number names.
pub fn cannot_open(rt: &impl System, program: &[u8], number: usize) {
    fail_of(rt, program, b"cannot open", number);
}

// `PROGRAM: cannot read FILE`.
pub fn cannot_read(rt: &impl System, program: &[u8], number: usize) {
    fail_of(rt, program, b"cannot read", number);
}

// `PROGRAM: - is standard input, which can be gone over only once: give a file`, or
// `PROGRAM: FILE can be gone over only once: give a file`.
pub fn only_once(rt: &impl System, program: &[u8], number: usize) {
    if is_input(rt, number) {
        fail(
            rt,
            program,
            b"- is standard input, which can be gone over only once: give a file",
        );
        return;
    }
    fail_with(
        rt,
        program,
        number,
        b"can be gone over only once: give a file",
    );
}

// What is wrong with the cards, where document 01 has no words for it. Of good cards nothing, nor of
// no card and of a bad length: the one is usage, the other `trace refused 16`.
pub fn say_found(rt: &impl System, program: &[u8], found: Result<(), CardsWrong>) {
    match found {
        Ok(()) => {}
        Err(CardsWrong::NoCard) => {}
        Err(CardsWrong::TooMany) => fail(rt, program, b"too many cards"),
        Err(CardsWrong::CannotOpen(number)) => cannot_open(rt, program, number),
        Err(CardsWrong::CannotRead(number)) => cannot_read(rt, program, number),
        Err(CardsWrong::BadLength(_)) => {}
        Err(CardsWrong::Once(number)) => only_once(rt, program, number),
    }
}

// Why a program goes over no cards: one has a bad length; none is named; or it was said what is
// wrong with them.
#[derive(Clone, Copy, PartialEq, Eq)]
pub enum NoCards {
    BadLength,
    NoCard,
    Said,
}

// What is left for a program to say of the cards.
fn left_to_say(wrong: CardsWrong) -> NoCards {
    match wrong {
        CardsWrong::NoCard => NoCards::NoCard,
        CardsWrong::BadLength(_) => NoCards::BadLength,
        CardsWrong::TooMany => NoCards::Said,
        CardsWrong::CannotOpen(_) => NoCards::Said,
        CardsWrong::CannotRead(_) => NoCards::Said,
        CardsWrong::Once(_) => NoCards::Said,
    }
}

// Goes over all cards for their lengths, as `go_over` does, and says what is wrong with them.
pub fn find_cards(
    rt: &impl System,
    program: &[u8],
    first: usize,
    lengths: &mut [u64],
    block: &mut [u8],
) -> Result<(), NoCards> {
    let found = go_over(rt, first, lengths, block);
    say_found(rt, program, found);
    found.map_err(left_to_say)
}

// What ended a pass over the cards; of one that is over, or goes on, nothing.
pub fn say_goes(rt: &impl System, program: &[u8], how: Result<Goes, PassFailed>) {
    match how {
        Ok(_) => {}
        Err(PassFailed::CannotOpen(number)) => cannot_open(rt, program, number),
        Err(PassFailed::CannotRead(number)) => cannot_read(rt, program, number),
        Err(PassFailed::NoRoom) => {}
    }
}
