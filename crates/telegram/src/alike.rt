// The walk over the places after the first, left as soon as one has another X, Y or Z.
ghost use Rattle.std.specs.Prelude.{◌≡◌, ◌+◌, ◌-◌, ◌<◌, ◌∷◌};
ghost use Rattle.words.specs.Answer.{gives};
ghost use Rattle.telegram.specs.Place.{words_at, places};
ghost use Rattle.telegram.specs.Survey.{together};
ghost use Rattle.telegram.specs.Says.{says_surveyed};

use crate::ahead::{before_first, marks, up_to};
use crate::bits::forty;
use crate::forty::{is_place, word};
use crate::{NotAlike, Surveyed, Telegram};

// The place `first`, which says `telegram`, with the places after it and before bit `stop`: all
// alike, or two differ.
pub fn to_first(
    buf: &[u8],
    first: usize,
    stop: usize,
    s: u8,
    t: u8,
    telegram: Telegram,
) -> Result<Surveyed, NotAlike>
    requires { (first < stop) × (gives telegram ≡ words_at buf.now first) }
    ensures { says_surveyed result ≡ together buf.now (first ∷ places buf.now (first + 1) (stop - (first + 1) + 39) s t) }
{
    let kept = forty(buf, first);
    let mut p = first + 1;
    let mut count: usize = 1;
    // Stays as it is: the new form is no plainer, for p goes by a stride that each turn finds.
    'scan: while p < stop {
        let h = marks(buf, p, s, t);
        if h == 0 {
            p = up_to(p, 57 - p % 8, stop);
        } else {
            p = up_to(p, before_first(h, p % 8), stop);
            if p < stop {
                let v = forty(buf, p);
                if is_place(v, s, t) {
                    for k in 0..3 {
                        if word(v, k) != word(kept, k) {
                            break 'scan;
                        }
                    }
                    count += 1;
                }
                p += 1;
            }
        }
    }
    if p < stop {
        return Err(NotAlike::Differ);
    }
    Ok(Surveyed {
        telegram,
        first,
        count,
    })
}
