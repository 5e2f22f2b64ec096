// The leads, piece after piece.
ghost use Rattle.std.specs.Prelude.{◌≡◌, ◌%◌, ◌≤◌, length};

use crate::carrying::carry;
use console::{Far, Goes, PassFailed, Source, System, go_on_somehow, not_begun, read_some, wipe};

// Where the reading of the leads stands: the argument of the first, how many were begun, the open
// file if there is one, the bytes of a frame that is not whole yet: where they stand in the block,
// and how many they are; and how far it is.
#[derive(Drop)]
pub struct Leads {
    first: usize,
    begun: usize,
    file: Option<Source>,
    from: usize,
    count: usize,
    far: Far,
}

// What a call leaves: the reading, how many bytes of whole frames stand at the start of the block,
// and how it goes on.
#[derive(Drop)]
pub struct Piece {
    pub leads: Leads,
    pub length: usize,
    pub how: Result<Goes, PassFailed>,
}

// The leads from this argument on, none begun.
pub fn begin(first: usize) -> Leads {
    Leads {
        first,
        begun: 0,
        file: None,
        from: 0,
        count: 0,
        far: not_begun(),
    }
}

// How many bytes stand after the last whole frame.
pub fn kept(leads: &Leads) -> usize {
    leads.count
}

// No frame, with this file open, so many leads begun, and so many bytes of a frame at the front of
// the block.
fn none(leads: Leads, begun: usize, file: Option<Source>, how: Result<Goes, PassFailed>) -> Piece
    ensures { result.length ≡ 0 }
{
    let far = leads.far;
    Piece {
        leads: Leads {
            first: leads.first,
            begun,
            file,
            from: leads.from,
            count: leads.count,
            far,
        },
        length: 0,
        how,
    }
}

// Whether an argument is `-`, or there is none: standard input.
fn is_input(rt: &impl System, number: usize) -> bool {
    if console::argument_count(rt) <= number {
        return true;
    }
    console::is_input(rt, number)
}

// The file of an argument, or standard input; none where it cannot be opened.
fn open(rt: &impl System, number: usize) -> Option<Source> {
    if is_input(rt, number) {
        return Some(Source::Given);
    }
    console::open_card(rt, number)
}

// The next lead is opened; without a name, standard input is the only one.
fn next_lead(rt: &impl System, leads: Leads) -> Piece
    ensures { result.length ≡ 0 }
{
    let begun = leads.begun;
    let number = leads.first.wrapping_add(begun);
    let is_last = console::argument_count(rt) <= number;
    if is_last & (begun > 0) {
        let far = leads.far;
        wipe(rt, far);
        return none(leads, begun, None, Ok(Goes::End));
    }
    let file = open(rt, number);
    let how = if file.is_none() {
        Err(PassFailed::CannotOpen(number))
    } else {
        Ok(Goes::More)
    };
    none(leads, begun.wrapping_add(1), file, how)
}

// The open lead is closed: it has ended, or a read of it failed.
fn closed(leads: Leads, how: Result<Goes, PassFailed>) -> Piece
    ensures { result.length ≡ 0 }
{
    let begun = leads.begun;
    none(leads, begun, None, how)
}

// The whole frames of the first `end` bytes of the block; the bytes after them are kept.
fn frames(rt: &impl System, leads: Leads, file: Source, end: usize) -> Piece
    ensures { (result.length ≤ end) × (result.length % 16 ≡ 0) }
{
    let count = end % 16;
    let length = end - count;
    let before = leads.far;
    let far = go_on_somehow(rt, before, true, length);
    Piece {
        leads: Leads {
            first: leads.first,
            begun: leads.begun,
            file: Some(file),
            from: length,
            count,
            far,
        },
        length,
        how: Ok(Goes::More),
    }
}

// One read of the open lead, behind the bytes that are kept at the front of the block.
fn read_on(rt: &impl System, leads: Leads, mut file: Source, block: &mut [u8]) -> Piece
    requires { leads.count ≤ length block.old }
    ensures { (result.length ≤ length block.old) × (result.length % 16 ≡ 0) }
{
    let kept = leads.count;
    if kept == block.len() {
        let begun = leads.begun;
        return none(leads, begun, Some(file), Err(PassFailed::NoRoom));
    }
    let got = read_some(rt, &mut file, &mut block[kept..]);
    if got.failed {
        let number = leads.first.wrapping_add(leads.begun).wrapping_sub(1);
        return closed(leads, Err(PassFailed::CannotRead(number)));
    }
    let more = got.count;
    if more == 0 {
        return closed(leads, Ok(Goes::More));
    }
    frames(rt, leads, file, kept + more)
}

// The next frames of the leads, as far as they have come, at the start of the block; or the next
// lead is opened.
pub fn next_piece(rt: &impl System, leads: Leads, block: &mut [u8]) -> Piece
    ensures { (result.length ≤ length block.old) × (result.length % 16 ≡ 0) }
{
    let count = carry(block, leads.from, leads.count);
    let far = leads.far;
    let here = Leads {
        first: leads.first,
        begun: leads.begun,
        file: None,
        from: 0,
        count,
        far,
    };
    match leads.file {
        Some(file) => read_on(rt, here, file, block),
        None => next_lead(rt, here),
    }
}
