// The test balise of document 02: what a balise sends, written as packed bits into a lent buffer.
// Promises: what is written is the balise's line, S first, for n telegrams and a closing sync word;
// a refusal leaves the buffer as it was.
// Specification: specs/Write.antt (the bytes and the refusals), specs/Says.antt (the answers).
// Laws: bit j of what is written is the bit that the balise sends as line bit j (`WritesTheLine` of
// specs/Sender.antt).
#![tactic(auto)]

ghost use Rattle.std.specs.Prelude.{◌≡◌};
ghost use Rattle.balise_writer.specs.Write.{write};
ghost use Rattle.balise_writer.specs.Says.{says_written};

mod filling;

use telegram::{NotSpelt, Spelt};

// What writing a test balise answers: so many bytes written, or why none.
#[derive(Clone, Copy)]
pub enum Written {
    Bytes(usize),
    TooLarge,
    Fifteen,
    NotSeven,
    Count,
    Short,
}

// The n telegrams of a balise that says x, y, z (or, for x = 12, the number y), S first, the sync
// words s and t in turn and one to close: 4n + 1 bytes at the start of out, all others as they
// were; or refusal 2, 3, 4, 20, 21 in this order, and out as it was.
pub fn write(x: u8, y: u16, z: u8, s: u8, t: u8, n: u32, out: &mut [u8]) -> Written
    ensures { says_written result out.new ≡ write x y z s t n out.old }
{
    match telegram::spell(x, y, z) {
        Ok(Spelt { x: a, y: b, z: c }) => filling::write_words(a, b, c, s, t, n, out),
        Err(NotSpelt::TooLarge) => Written::TooLarge,
        Err(NotSpelt::Fifteen) => Written::Fifteen,
    }
}
