// The leads that a program's arguments name, read as one lead in pieces of whole frames, as their
// bytes come; and the settings that stand before them. What reads, writes or asks for an argument
// takes the system first, `rt: &impl System`, which is left out below.
// 1. `options(program, aside)` takes `S S*` or `-s SETTINGS` and answers as `console::options`
//    does: `Plain` is a good pair, with the gap 40. What is refused is said: `refused 4: WORDS`, or
//    as `asked` says it, on standard output; for a program whose result is bytes (`aside`) after
//    its name on standard error.
// 2. `begin(first)` and `next_piece(leads, block)` read the leads from argument `first` on, byte
//    after byte, a frame may straddle two of them; none, or `-`, is standard input.
//    `block[..length]` are whole frames, none where nothing has come yet; `how` says whether more
//    may come (`More`), all were read (`End`), or what failed. One call reads once, and waits for
//    no more than what has come. The bytes of a frame that is not whole yet stay in the block: the
//    next call is lent the same block, unchanged. A lead is opened when its turn comes.
//    `over_leads(first, block, takes)` lends each piece to a closure, up to one that it does not
//    take.
// 3. `kept(leads)`: how many bytes stand after the last whole frame. `say(program, failed)`: one
//    line of standard error for what failed, which is told.
// Promises: all is safe and ends; what is read lies within what was lent, and a piece is whole
// frames. What is read or written stands outside contracts: docs/EXCEPTIONS.md.
#![tactic(auto)]

mod before;
mod carrying;
mod over;
mod pieces;
mod saying;

pub use before::options;
pub use over::over_leads;
pub use pieces::{Leads, Piece, begin, kept, next_piece};
pub use saying::say;
