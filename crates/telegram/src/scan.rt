// The walk over the offsets of a stretch to its first place: past those without a mark, and on to
// the first that has one.
ghost use Rattle.std.specs.Prelude.{◌≡◌, ◌+◌, ◌-◌, ◌≤◌};
ghost use Rattle.telegram.specs.Place.{first_of, places};
ghost use Rattle.telegram.specs.Says.{says_found};

use crate::ahead::{before_first, marks, up_to};
use crate::bits::forty;
use crate::forty::{outer_are_syncs, words_of};
use crate::{Found, NotFound};

// The first place from bit `start` on and before bit `stop`.
pub fn first_place(buf: &[u8], start: usize, stop: usize, s: u8, t: u8) -> Result<Found, NotFound>
    requires { start ≤ stop }
    ensures { says_found result ≡ first_of buf.now (places buf.now start (stop - start + 39) s t) }
{
    let mut p = start;
    // Stays as it is: the new form is no plainer, for p goes by a stride that each turn finds.
    while p < stop {
        let h = marks(buf, p, s, t);
        if h == 0 {
            p = up_to(p, 57 - p % 8, stop);
        } else {
            p = up_to(p, before_first(h, p % 8), stop);
            if p < stop {
                let v = forty(buf, p);
                if outer_are_syncs(v, s, t) {
                    if let Ok(telegram) = words_of(v) {
                        return Ok(Found { place: p, telegram });
                    }
                }
                p += 1;
            }
        }
    }
    Err(NotFound::NoPlace)
}
