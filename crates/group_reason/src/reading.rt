// Reading the balises of a group up to the first bad one.
ghost use Rattle.std.specs.Prelude.{◌≡◌, ◌≤◌, take};
ghost use Rattle.group.specs.Balise.{part_said};
ghost use Rattle.group_reason.specs.Explain.{part_or_bad, read_from};
ghost use Rattle.group_reason.specs.Inside.{says_part_read, says_all_read};

use crate::BadBalise;
use group::{Balise, Heard};
use group_rows::{Part, Placed};
use telegram::{BadWord, Telegram};

// The first bad balise of a group: its index from 0, its place, and what is bad about it.
#[derive(Clone, Copy)]
pub struct Unread {
    pub balise: u8,
    pub place: u32,
    pub bad: BadBalise,
}

// A telegram as a part of a group.
fn part_of(t: Telegram) -> Part
    ensures { result ≡ part_said t }
{
    match t {
        Telegram::Figures(x, y, z) => Part::Figures(x, y, z),
        Telegram::Number(m) => Part::Number(m),
    }
}

// What was heard, read, or what is bad about it.
fn part_heard(heard: Heard) -> Result<Part, BadBalise>
    ensures { says_part_read result ≡ part_or_bad heard }
{
    match heard {
        Heard::Words(x, y, z) => match telegram::read(x, y, z) {
            Ok(t) => Ok(part_of(t)),
            Err(BadWord::NotCode(w, p)) => Err(BadBalise::NotCode(w, p)),
            Err(BadWord::Fifteen(w)) => Err(BadBalise::Fifteen(w)),
        },
        Heard::Marker => Ok(Part::Marker),
        Heard::Unreadable => Err(BadBalise::Unreadable),
    }
}

// Five places for balises as read, before any is.
const NO_PARTS: [Placed; 5] = [Placed {
    place: 0,
    part: Part::Marker,
}; 5];

// The first n balises read, or the first bad one.
pub fn read_all(kept: [Balise; 5], n: usize) -> Result<[Placed; 5], Unread>
    requires { n ≤ 5 }
    ensures { says_all_read n result ≡ read_from 0 (take n kept) }
{
    let mut parts = NO_PARTS;
    for i in 0..n {
        let b = kept[i];
        let heard = b.heard;
        match part_heard(heard) {
            Ok(part) => {
                parts[i] = Placed {
                    place: b.place,
                    part,
                };
            }
            Err(bad) => {
                return Err(Unread {
                    balise: i as u8,
                    place: b.place,
                    bad,
                });
            }
        }
    }
    Ok(parts)
}
