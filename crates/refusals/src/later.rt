// The refusals of document 02's requests.
ghost use Rattle.std.specs.Prelude.{◌≡◌, ◌≤◌};
ghost use Rattle.text.specs.Put.{put, came};
ghost use Rattle.refusals.specs.Words.{refused};

use crate::bare::put_number_alone;
use text::put;

// A number from 20 on, with its words.
pub fn put_later(number: u8, buf: &mut [u8], at: usize) -> usize
    requires { 20 ≤ number }
    ensures { came result buf.new ≡ put (refused number) buf.old at }
{
    match number {
        20 => put(
            b"refused 20: number of telegrams outside 2 to 1,000\n",
            buf,
            at,
        ),
        22 => put(b"refused 22: no state is kept to go back to\n", buf, at),
        23 => put(b"refused 23: no further record\n", buf, at),
        24 => put(b"refused 24: place not above the last one\n", buf, at),
        25 => put(b"refused 25: more than 32 versions\n", buf, at),
        26 => put(
            b"refused 26: bad plan record, length or count above 64\n",
            buf,
            at,
        ),
        27 => put(b"refused 27: entries out of order or too near\n", buf, at),
        28 => put(b"refused 28: tolerance above 500\n", buf, at),
        _ => put_number_alone(number, buf, at),
    }
}
