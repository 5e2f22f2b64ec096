// All pieces of the leads, one after the other, lent to a closure.
use crate::pieces::{Piece, begin, kept, next_piece};
use console::{Goes, PassFailed, System};

// Goes over the whole frames of all leads from this argument on, piece after piece as they come, up
// to the first that is not taken. Where all were: how many bytes of a frame that is not whole then
// stand at the front of the block. A proved loop has to end, and nothing says that a lead does: so
// it takes no more turns than no run uses up.
pub fn over_leads<F: FnMut(&mut [u8]) -> bool>(
    rt: &impl System,
    first: usize,
    block: &mut [u8],
    mut takes: F,
) -> Result<Option<usize>, PassFailed>
    requires { F.IsAlwaysCallable takes }
{
    let mut leads = begin(first);
    for _ in 0..u64::MAX {
        let Piece {
            leads: then,
            length,
            how,
        } = next_piece(rt, leads, block);
        if !takes(&mut block[..length]) {
            return Ok(None);
        }
        if how? == Goes::End {
            return Ok(Some(kept(&then)));
        }
        leads = then;
    }
    Err(PassFailed::NoRoom)
}
