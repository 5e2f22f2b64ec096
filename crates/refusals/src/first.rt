// The refusals of document 01.
ghost use Rattle.std.specs.Prelude.{◌≡◌, ◌<◌};
ghost use Rattle.text.specs.Put.{put, came};
ghost use Rattle.refusals.specs.Words.{refused};

use crate::bare::put_number_alone;
use text::put;

// A number up to 19, with its words.
pub fn put_first(number: u8, buf: &mut [u8], at: usize) -> usize
    requires { number < 20 }
    ensures { came result buf.new ≡ put (refused number) buf.old at }
{
    match number {
        2 => put(
            b"refused 2: figure to write above 15 or above 2,047\n",
            buf,
            at,
        ),
        3 => put(b"refused 3: a short word of a telegram reads 15\n", buf, at),
        4 => put(
            b"refused 4: sync pair doesn't differ in seven bits\n",
            buf,
            at,
        ),
        5 => put(b"refused 5: above 16,777,216 bits\n", buf, at),
        7 => put(b"refused 7: places differ\n", buf, at),
        8 => put(b"refused 8: contact neither telegram nor marker\n", buf, at),
        9 => put(
            b"refused 9: contact cut by the end of the record\n",
            buf,
            at,
        ),
        16 => put(b"refused 16: trace length not a multiple of 8\n", buf, at),
        17 => put(
            b"refused 17: odometer below the last accepted one\n",
            buf,
            at,
        ),
        18 => put(b"refused 18: odometer above 4,000,000,000\n", buf, at),
        19 => put(b"refused 19: gap outside 1 to 200\n", buf, at),
        _ => put_number_alone(number, buf, at),
    }
}
