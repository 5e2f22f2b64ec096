// The bytes of a test balise.
ghost use Rattle.std.specs.Prelude.{◌≡◌, ℕ, ◌%◌, ◌<◌, ◌≤◌, length, get_or};
ghost use Rattle.balise_writer.specs.Write.{bytes_of, onto};
ghost use Rattle.balise_writer.specs.Says.{says_written};

use crate::Written;

// The first `end` bytes of out: the eight bytes that the balise repeats, again and again.
fn fill(eight: &[u8; 8], end: usize, out: &mut [u8])
    requires { end ≤ length out.old }
    ensures by_index { (i : ℕ) → i < end → get_or out.new i 0 ≡ get_or eight.now (i % 8) 0 }
    ensures by_index_2 { (i : ℕ) → end ≤ i → get_or out.new i 0 ≡ get_or out.old i 0 }
{
    for i in 0..end {
        out[i] = eight[i % 8];
    }
}

// The telegrams with these words; or refusal 4, 20 or 21.
pub fn write_words(x: u8, y: u8, z: u8, s: u8, t: u8, n: u32, out: &mut [u8]) -> Written
    ensures { says_written result out.new ≡ onto out.old (bytes_of s t n (length out.old) (record { x = x; y = y; z = z })) }
{
    let Ok(()) = telegram::good_pair(s, t) else {
        return Written::NotSeven;
    };
    if (n < 2) | (n > 1000) {
        return Written::Count;
    }
    let end = n as usize * 4 + 1;
    if out.len() < end {
        return Written::Short;
    }
    fill(&[s, x, y, z, t, x, y, z], end, out);
    Written::Bytes(end)
}
