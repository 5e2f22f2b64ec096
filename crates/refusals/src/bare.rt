// A refusal by a number that has no words here.
ghost use Rattle.std.specs.Prelude.{◌≡◌, ◌+◌, ◌≤◌, length};
ghost use Rattle.text.specs.Put.{put, came};
ghost use Rattle.refusals.specs.Words.{alone};

use text::{put, put_number};

// The number and the line's end, where there is room for them.
fn spell(number: u8, buf: &mut [u8], at: usize) -> usize
    requires { at + length (alone number) ≤ length buf.old }
    ensures { came result buf.new ≡ put (alone number) buf.old at }
{
    let a = put_number(b"refused ", number as u64, buf, at);
    put(b"\n", buf, a)
}

// The number alone, into buf from `at` on, whole or not at all.
pub fn put_number_alone(number: u8, buf: &mut [u8], at: usize) -> usize
    ensures { came result buf.new ≡ put (alone number) buf.old at }
{
    let mut space = [0u8; 64];
    let n = spell(number, &mut space, 0);
    text::put(&space[..n], buf, at)
}
