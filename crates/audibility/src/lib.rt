// What can never be heard with a sync pair: the telegrams whose line closes every contact too soon,
// and the lines of text that list them.
// Promises: a telegram is called broken exactly if some sixteen bits in a row of its line have four
// zeroes or fewer; texts are written whole or not at all.
// Specification: specs/Sound.antt, specs/Lines.antt (the words), specs/Says.antt (the answers).
#![tactic(auto)]

ghost use Rattle.std.specs.Prelude.{◌≡◌};
ghost use Rattle.telegram.specs.Spelling.{asked};
ghost use Rattle.text.specs.Put.{put, came};
ghost use Rattle.audibility.specs.Sound.{sound_of};
ghost use Rattle.audibility.specs.Lines.{telegram_line, count_line};
ghost use Rattle.audibility.specs.Says.{says_sound};

mod lines;
mod sixteen;

use telegram::{NotSpelt, Spelt};

// Whether a balise can be heard: audible, or broken; or why there is none, 2, 3 or 4.
#[derive(Clone, Copy)]
pub enum Sound {
    Audible,
    Broken,
    TooLarge,
    Fifteen,
    NotSeven,
}

// Whether the balise that says x, y, z (or, for x = 12, the number y) with the sync words s and t
// is audible or broken; or 2, 3, 4 in this order.
pub fn sound_of(x: u8, y: u16, z: u8, s: u8, t: u8) -> Sound
    ensures { says_sound result ≡ sound_of x y z s t }
{
    match telegram::spell(x, y, z) {
        Ok(Spelt { x: a, y: b, z: c }) => sixteen::sound(a, b, c, s, t),
        Err(NotSpelt::TooLarge) => Sound::TooLarge,
        Err(NotSpelt::Fifteen) => Sound::Fifteen,
    }
}

// The line of figures, or of 12 and a number, to the letter, into buf from `at` on, all other bytes
// as they were, and the place after it; without room nothing is written, and the answer is `at`.
pub fn put_telegram(x: u8, y: u16, z: u8, buf: &mut [u8], at: usize) -> usize
    ensures { came result buf.new ≡ put (telegram_line (asked x y z)) buf.old at }
{
    let mut space = [0u8; 64];
    let n = lines::put_figures(x, y, z, &mut space, 0);
    text::put(&space[..n], buf, at)
}

// The last line, with how many there are, likewise.
pub fn put_count(telegrams: u32, numbers: u32, buf: &mut [u8], at: usize) -> usize
    ensures { came result buf.new ≡ put (count_line telegrams numbers) buf.old at }
{
    let mut space = [0u8; 128];
    let n = lines::put_counts(telegrams, numbers, &mut space, 0);
    text::put(&space[..n], buf, at)
}
