// What a line shows of an accepted group.
ghost use Rattle.std.specs.Prelude.{◌≡◌};
ghost use Rattle.ride.specs.Closing.{number_on, seen_from};

use crate::marks::mark_from;
use crate::{Linking, Seen};
use group::{Message, Number};
use group_rows::Kind;

// The number on the line of a group of this kind: signals alone show theirs.
fn number_on(kind: Kind, number: Number) -> Number
    ensures { result ≡ number_on kind number }
{
    match kind {
        Kind::Signal => number,
        Kind::Warning => Number::None,
        Kind::Annulled => Number::None,
        Kind::Line => Number::None,
        Kind::Route => Number::None,
    }
}

// An accepted group as its line shows it, from the linking before it.
pub fn seen_from(message: Message, linking: Linking) -> Seen
    ensures { result ≡ seen_from message linking }
{
    let content = message.content;
    let direction = message.direction;
    let kind = message.kind;
    let number = message.number;
    Seen {
        place: message.place as u64,
        direction,
        kind,
        mark: mark_from(content, message.place, linking),
        number: number_on(kind, number),
    }
}
