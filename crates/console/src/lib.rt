// What programs share that read and write: what they say and how they tell the launcher that
// something was wrong, arguments, the settings that stand before the cards, and the cards
// themselves. What reads, writes, or asks for an argument or the clock takes the system first,
// `rt: &impl System`, which is left out below.
// 1. `tell`: one digit goes to descriptor 9, which the launcher (./run, atc2) alone opens; a
//    program that is run by itself has no such pipe, and nothing happens. By it the launcher ends,
//    and not by the program's own exit status.
// 2. `fail`, `fail_of`: a line of standard error that begins with the program's name, where the
//    call comes to nothing by it, which is told. `usage`, `cannot_write`, `wrong` (an argument),
//    `refuse`, `to_terminal`: what programs have to say alike, and tell. `say`: bytes of such a
//    line.
// 3. `room`: room for lines; `write`: the first bytes of a buffer to a `Stream`; `put`: to
//    standard output, and a failure is said and told; `refuse_by`: a line there by which the call
//    is refused; `refuse_here`: `refused 4: WORDS`; `refuse_trace`: `trace refused 16`, in document
//    01's words.
// 4. `argument_count`: how many words a call has. `number`, `is_input`, `is_option`: an argument as
//    a figure, as standard input (`-`), as an option (`-p`). `figure` (the largest stands for all
//    above it), `number_in` (a range), `sync_pair` (two words of two hex digits): the same, and
//    where it is none that is said.
// 5. `options(program, aside)` takes `-s SETTINGS` and answers an `AskedFor`: the store; whose it
//    is, `Plain` (no `-s`: that of document 01's gap, 40) or `Settings` (the good one of the file);
//    and the first argument after the settings (1, or 3). Else a `CallWrong`: `Usage` (`-s` without
//    a file: the program says its usage), or `Said`: the settings are bad, and it was said and
//    told. Then there is no store, and the program ends, before any card is opened. Said are,
//    on standard output, `settings line 3 refused 24: WORDS`, `settings line 3 unreadable`,
//    `settings refused 19: WORDS`; for a program whose result is bytes (`aside`) the same after its
//    name on standard error; there, for every program, `PROGRAM: cannot open FILE`,
//    `PROGRAM: cannot read FILE`, `PROGRAM: settings too long`. `options_at(program, aside, at)`:
//    the same from argument `at` on, after an option of the program's own.
// 6. `go_over(first, lengths, block)` goes over all cards for their lengths, from argument `first`
//    on (1 is the first after the program's name); where they are no cards of whole records, a
//    `CardsWrong` says which argument failed and how. `lengths` has room for the most cards,
//    `block` is any buffer. `find_cards(program, ..)` does the same and says what is wrong.
// 7. `begin(first)` and `next_block(pass, lengths, block)` read them again, block by block of whole
//    records, card after card: `block[..read]` holds the next records, `how` says whether more may
//    come (`More`; an empty block too), all were read (`End`), or what failed. No more is read than
//    `go_over` counted. `over_cards(first, lengths, block, takes)` lends each block to a closure,
//    up to one that it does not take.
// 8. `open_card(number)` opens the file of an argument, if that can be done; `fill(from, buf)` and
//    `read_some(from, buf)`, one read alone, read it, and `to_start(from)` begins again, for files
//    that are no cards (settings, a plan). The name `-` is standard input. A `Source` is closed
//    where it is let go.
// 9. `cannot_open`, `cannot_read`, `only_once`, `say_found`: one line of standard error each,
//    `explain: cannot open FILE`, and it is told. Of a bad length `say_found` says nothing: that is
//    `trace refused 16`. `say_goes`: what ended a pass.
// 10. `not_begun`, `go_on_somehow`, `wipe`: how far long work is, at a terminal; `go_over` and
//     `next_block` say it by themselves.
// Promises: all is safe and ends; what is read lies within what was lent, and a block is whole
// records; where the cards begin, and that what is ridden under is good (specs/Asked.antt). The
// words of a refusal are `refusals`', figures `figures`', settings `settings_text`'s. What is read
// or written stands outside contracts: docs/EXCEPTIONS.md.
#![tactic(auto)]

mod arguments;
mod before;
mod blocks;
mod goes;
mod lengths;
mod over;
mod progress;
mod reading;
mod saying;
mod status;
mod streams;
mod system;
mod telling;

pub use arguments::{
    CallWrong, Said, argument_count, figure, is_input, is_option, number, number_in, sync_pair,
};
pub use before::{AskedFor, StoreOf, options, options_at};
pub use blocks::{CardBlock, Pass, begin, next_block};
pub use goes::{Goes, PassFailed};
pub use lengths::{CardsWrong, go_over, open_card, to_start};
pub use over::over_cards;
pub use progress::{Far, go_on_somehow, not_begun, wipe};
pub use reading::{Filled, fill, read_some};
pub use saying::{cannot_write, fail, fail_of, refuse, say, to_terminal, usage, wrong};
pub use status::{CallEnded, tell};
pub use streams::{Stream, put, refuse_by, refuse_here, refuse_trace, room, write};
pub use system::{Source, System};
pub use telling::{NoCards, cannot_open, cannot_read, find_cards, only_once, say_found, say_goes};
