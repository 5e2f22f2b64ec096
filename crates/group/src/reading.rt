// Reading the balises of a group from what was heard.
ghost use Rattle.std.specs.Prelude.{◌≡◌, ◌≤◌, take, IfSome};
ghost use Rattle.group.specs.Numbers.{number_of};
ghost use Rattle.group.specs.Balise.{part_said, part_heard, read_all};
ghost use Rattle.group.specs.Inside.{says_part_read, says_all_read};

use crate::numbers::else_number;
use crate::{Balise, Heard, Number};
use group_rows::{Part, Placed, after_first};
use telegram::Telegram;

// The balises of a group as read, and their number.
#[derive(Clone, Copy)]
pub struct AllRead {
    pub parts: [Placed; 5],
    pub number: Number,
}

// A telegram as a part of a group.
fn part_of(t: Telegram) -> Part
    ensures { result ≡ part_said t }
{
    match t {
        Telegram::Figures(x, y, z) => Part::Figures(x, y, z),
        Telegram::Number(m) => Part::Number(m),
    }
}

// What was heard, read; none is refusal 12.
fn part_heard(heard: Heard) -> Option<Part>
    ensures { says_part_read result ≡ part_heard heard }
{
    match heard {
        Heard::Words(x, y, z) => match telegram::read(x, y, z) {
            Ok(t) => Some(part_of(t)),
            Err(_) => None,
        },
        Heard::Marker => Some(Part::Marker),
        Heard::Unreadable => None,
    }
}

// Five places for balises as read, before any is. A constant is copied whole, where a literal is
// written field by field.
const NO_PARTS: [Placed; 5] = [Placed {
    place: 0,
    part: Part::Marker,
}; 5];

// The first n balises read; none is refusal 12.
pub fn read_all(kept: [Balise; 5], n: usize) -> Option<AllRead>
    requires { n ≤ 5 }
    ensures result_value { says_all_read n result ≡ read_all (take n kept) }
    ensures number_value { IfSome result (λ all. all.number ≡ number_of (take n all.parts)) }
{
    let mut parts = NO_PARTS;
    let mut number = Number::None;
    let mut ahead = kept;
    for i in 0..n {
        let b = ahead[0];
        let heard = b.heard;
        let part = part_heard(heard)?;
        parts[i] = Placed {
            place: b.place,
            part,
        };
        number = else_number(number, part);
        ahead = after_first(ahead);
    }
    Some(AllRead { parts, number })
}
