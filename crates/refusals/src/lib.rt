// The documents' words for a refusal number, as they end a line of our own:
// `refused 22: no state is kept to go back to`.
// Promises: a refusal is written to the letter and whole, or not at all; bytes around it stay.
// Specification: specs/Words.antt (the table); a text in a buffer is `text`'s specs/Put.antt.
#![tactic(auto)]

ghost use Rattle.std.specs.Prelude.{◌≡◌};
ghost use Rattle.text.specs.Put.{put, came};
ghost use Rattle.refusals.specs.Words.{refused};

mod bare;
mod first;
mod later;

// The refusal with its words and the line's end into buf from `at` on, and the place after it;
// without room buf stays as it is, and the answer is `at`.
pub fn put_refused(number: u8, buf: &mut [u8], at: usize) -> usize
    ensures { came result buf.new ≡ put (refused number) buf.old at }
{
    if number < 20 {
        return first::put_first(number, buf, at);
    }
    later::put_later(number, buf, at)
}
