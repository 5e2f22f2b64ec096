// All blocks of the cards, one after the other, lent to a closure.
use crate::blocks::{CardBlock, begin, next_block};
use crate::goes::{Goes, PassFailed};
use crate::system::System;

// Goes over the records of all cards from this argument on, whose lengths were kept, block after
// block, up to the first that is not taken; whether all were. A proved loop has to end, and nothing
// says that a file does: so it takes no more turns than no run uses up.
pub fn over_cards<F: FnMut(&mut [u8]) -> bool>(
    rt: &impl System,
    first: usize,
    lengths: &[u64],
    block: &mut [u8],
    mut takes: F,
) -> Result<bool, PassFailed>
    requires { F.IsAlwaysCallable takes }
{
    let mut pass = begin(first);
    for _ in 0..u64::MAX {
        let CardBlock {
            pass: then,
            read,
            how,
        } = next_block(rt, pass, lengths, block);
        if !takes(&mut block[..read]) {
            return Ok(false);
        }
        if how? == Goes::End {
            return Ok(true);
        }
        pass = then;
    }
    Err(PassFailed::NoRoom)
}
