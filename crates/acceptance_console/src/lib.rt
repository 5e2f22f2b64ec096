// A plan of the test track and a ride compared with it: what `accept` and `draw -p` share. What
// reads, writes or asks for an argument takes the system first, `rt: &impl System`, which is left
// out below.
// 1. `plan_of(program, file)` reads the plan that argument `file` names, with the tolerance of the
//    argument after it, and answers a run over the plan that has not begun; or `Said`: there is
//    none, which was said and told: `plan refused 26: WORDS` on standard output, else
//    `PROGRAM: TOLERANCE is no figure: ARGUMENT`, `PROGRAM: cannot open FILE` or
//    `PROGRAM: cannot read FILE`.
// 2. `set_out(run)` is before the first record of the ride. `compare(program, lists, run, store,
//    first, lengths, block)` goes over the cards from argument `first` on, whose lengths were kept,
//    once, to the ride's end; it writes the lines of the groups where `lists` says so. Both answer
//    a `Compared`: the run on its way, and whether all went well; what did not was said and told.
// 3. `put_verdict(program, compared)` writes the sum and what a depot signs; a ride that did not
//    pass is told.
// Promises: all is safe and ends; a run sets out with a fresh ride and nothing wrong
// (specs/SetOut.antt). The plan is `acceptance::plan`'s, each block and the end
// `acceptance_text::accept`'s and `finish`'s; what they come to, whatever the blocks, is
// crates/acceptance_laws/specs/Accepted.antt. What is read or written stands outside contracts:
// docs/EXCEPTIONS.md.
#![tactic(auto)]

mod blocks;
mod plans;
mod verdict;

pub use blocks::{Compared, compare, set_out};
pub use plans::plan_of;
pub use verdict::put_verdict;
