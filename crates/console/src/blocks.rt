// The records of the cards, block after block and card after card.
ghost use Rattle.std.specs.Prelude.{◌≡◌, ◌%◌, ◌≤◌, length};
ghost use Rattle.console.specs.Pass.{pass_from};

use crate::goes::{Goes, PassFailed};
use crate::lengths::{named, open_card};
use crate::progress::{Far, go_on, not_begun, wipe};
use crate::reading::fill;
use crate::system::{Source, System};

// Where a pass over the cards stands: the first card's argument, how many cards were begun, the
// latest one's argument, its file if one is open, with the bytes left of it, and how far it is.
#[derive(Drop)]
pub struct Pass {
    first: usize,
    begun: usize,
    number: usize,
    file: Option<Source>,
    left: u64,
    far: Far,
}

// What a block leaves: the pass, how many bytes of whole records stand at the start of the block,
// and how it goes on.
#[derive(Drop)]
pub struct CardBlock {
    pub pass: Pass,
    pub read: usize,
    pub how: Result<Goes, PassFailed>,
}

// A pass over the cards from this argument on.
pub fn begin(first: usize) -> Pass
    ensures { result ≡ pass_from first }
{
    Pass {
        first,
        begun: 0,
        number: first,
        file: None,
        left: 0,
        far: not_begun(),
    }
}

// The pass with the next card open, of which there are so many bytes.
fn with_card(rt: &impl System, pass: Pass, begun: usize, number: usize, bytes: u64) -> CardBlock
    ensures { result.read ≡ 0 }
{
    let file = open_card(rt, number);
    let how = if file.is_none() {
        Err(PassFailed::CannotOpen(number))
    } else {
        Ok(Goes::More)
    };
    let far = pass.far;
    CardBlock {
        pass: Pass {
            first: pass.first,
            begun,
            number,
            file,
            left: bytes,
            far,
        },
        read: 0,
        how,
    }
}

// The pass after so many bytes, with its card closed: it has no further one, or is shorter by now,
// or a read of it failed.
fn closed(pass: Pass, read: usize, how: Result<Goes, PassFailed>) -> CardBlock
    ensures { result.read ≡ read }
{
    let far = pass.far;
    CardBlock {
        pass: Pass {
            first: pass.first,
            begun: pass.begun,
            number: pass.number,
            file: None,
            left: 0,
            far,
        },
        read,
        how,
    }
}

// The pass with its card open and read so far, of which so many bytes were read now.
fn further(pass: Pass, file: Source, read: usize) -> CardBlock
    requires { read ≤ pass.left }
    ensures { result.read ≡ read }
{
    let far = pass.far;
    CardBlock {
        pass: Pass {
            first: pass.first,
            begun: pass.begun,
            number: pass.number,
            file: Some(file),
            left: pass.left - read as u64,
            far,
        },
        read,
        how: Ok(Goes::More),
    }
}

// So many bytes of the open card into block, no more than are left of it: whole records.
fn read_on(
    rt: &impl System,
    pass: Pass,
    mut file: Source,
    want: usize,
    block: &mut [u8],
) -> CardBlock
    requires want_in_bounds { want ≤ length block.old }
    requires want_le_left { want ≤ pass.left }
    ensures { (result.read ≤ want) × (result.read % 8 ≡ 0) }
{
    let got = fill(rt, &mut file, &mut block[..want]);
    let read = got.count - got.count % 8;
    if got.failed {
        let number = pass.number;
        return closed(pass, read, Err(PassFailed::CannotRead(number)));
    }
    if read < want {
        return closed(pass, read, Ok(Goes::More));
    }
    further(pass, file, read)
}

// The next block of the open card: as many whole records as are left of it and have room.
fn next_of_card(rt: &impl System, pass: Pass, file: Source, block: &mut [u8]) -> CardBlock
    ensures { (result.read ≤ length block.old) × (result.read % 8 ≡ 0) }
{
    let left = pass.left;
    if left == 0 {
        return closed(pass, 0, Ok(Goes::More));
    }
    let room = block.len() - block.len() % 8;
    if room == 0 {
        return closed(pass, 0, Err(PassFailed::NoRoom));
    }
    if left < room as u64 {
        return read_on(rt, pass, file, left as usize, block);
    }
    read_on(rt, pass, file, room, block)
}

// The same with how far it is told; where the pass is over that is wiped out.
fn told(rt: &impl System, got: CardBlock, lengths: &[u64]) -> CardBlock
    ensures { result.read ≡ got.read }
{
    let CardBlock { pass, read, how } = got;
    let before = pass.far;
    let Ok(Goes::More) = how else {
        wipe(rt, before);
        return CardBlock { pass, read, how };
    };
    let far = go_on(rt, before, true, read, lengths);
    CardBlock {
        pass: Pass {
            first: pass.first,
            begun: pass.begun,
            number: pass.number,
            file: pass.file,
            left: pass.left,
            far,
        },
        read,
        how,
    }
}

// The next card opened, where no card is open; there is none after the last.
fn next_card(rt: &impl System, pass: Pass, lengths: &[u64]) -> CardBlock
    ensures { result.read ≡ 0 }
{
    let first = pass.first;
    let begun = pass.begun;
    if begun >= named(rt, first, lengths.len()) {
        return CardBlock {
            pass,
            read: 0,
            how: Ok(Goes::End),
        };
    }
    with_card(rt, pass, begun + 1, first + begun, lengths[begun])
}

// The next records of the cards, whose lengths were kept, into block: whole ones. Where a card
// begins or ends there are none.
pub fn next_block(rt: &impl System, pass: Pass, lengths: &[u64], block: &mut [u8]) -> CardBlock
    ensures { (result.read ≤ length block.old) × (result.read % 8 ≡ 0) }
{
    let mut here = pass;
    match here.file.take() {
        Some(file) => told(rt, next_of_card(rt, here, file, block), lengths),
        None => told(rt, next_card(rt, here, lengths), lengths),
    }
}
