// One balise more before A has passed: a match on its category tells which rows stay open.
ghost use Rattle.std.specs.Prelude.{◌≡◌};
ghost use Rattle.group_rows.specs.Open.{after};
ghost use Rattle.group_rows.specs.Stands.{rows_before, open_after};

use crate::picks::{line, opposite, present, route, to};
use crate::stands::{Before, May, Must, Walk};
use crate::{Kind, Part, Placed, is_category};

// The balise after a 12 and an 8.
fn after_both(b: Placed) -> Option<Walk>
    ensures { open_after result ≡ after (rows_before Before.NumberEight) b }
{
    let part = b.part;
    match part {
        Part::Figures(x, _, _) => match x {
            1 | 4 => present(Kind::Signal, 0, Must::Nine, b),
            10 => present(Kind::Annulled, 0, Must::Nine, b),
            _ => None,
        },
        Part::Number(_) => None,
        Part::Marker => None,
    }
}

// The balise after an 8.
fn after_eight(b: Placed) -> Option<Walk>
    ensures { open_after result ≡ after (rows_before Before.Eight) b }
{
    let part = b.part;
    match part {
        Part::Figures(x, _, z) => match x {
            2 => match z {
                0..=13 => present(Kind::Warning, 0, Must::LowNine, b),
                _ => None,
            },
            _ => after_both(b),
        },
        Part::Number(_) => None,
        Part::Marker => None,
    }
}

// The balise after a 12.
fn after_number(b: Placed) -> Option<Walk>
    ensures { open_after result ≡ after (rows_before Before.Number) b }
{
    let part = b.part;
    match part {
        Part::Figures(x, _, _) => match x {
            8 => to(Before::NumberEight),
            14 => to(Before::BackFourteen),
            9 => to(Before::BackNine),
            _ => after_both(b),
        },
        Part::Number(_) => None,
        Part::Marker => to(Before::BackNumberMarker),
    }
}

// The first balise.
fn from_nothing(b: Placed) -> Option<Walk>
    ensures { open_after result ≡ after (rows_before Before.Nothing) b }
{
    let part = b.part;
    match part {
        Part::Figures(x, y, z) => match x {
            12 => to(Before::Number),
            8 => to(Before::Eight),
            3 => line(y, z, b),
            5 => route(y, z, b),
            14 => to(Before::BackFourteen),
            9 => to(Before::BackNine),
            _ => after_eight(b),
        },
        Part::Number(_) => to(Before::Number),
        Part::Marker => to(Before::BackMarker),
    }
}

// The balise after the 9 of an opposite row.
fn after_nine(b: Placed) -> Option<Walk>
    ensures { open_after result ≡ after (rows_before Before.BackNine) b }
{
    let part = b.part;
    match part {
        Part::Figures(x, _, _) => match x {
            1 | 4 => opposite(Kind::Signal, May::Eight, b),
            10 => opposite(Kind::Annulled, May::Eight, b),
            2 => opposite(Kind::Warning, May::Nothing, b),
            _ => None,
        },
        Part::Number(_) => None,
        Part::Marker => None,
    }
}

// The balise after the marker that opens an opposite row.
fn after_marker(b: Placed) -> Option<Walk>
    ensures { open_after result ≡ after (rows_before Before.BackMarker) b }
{
    let part = b.part;
    match part {
        Part::Figures(x, y, _) => match x {
            2 => opposite(Kind::Warning, May::Nothing, b),
            3 => match y {
                9..=14 => opposite(Kind::Line, May::Nothing, b),
                _ => None,
            },
            _ => None,
        },
        Part::Number(_) => None,
        Part::Marker => None,
    }
}

// Where the walk stands after one balise more.
pub fn next(at: Before, b: Placed) -> Option<Walk>
    ensures { open_after result ≡ after (rows_before at) b }
{
    let part = b.part;
    match at {
        Before::Nothing => from_nothing(b),
        Before::Number => after_number(b),
        Before::Eight => after_eight(b),
        Before::NumberEight => after_both(b),
        Before::BackFourteen => {
            if is_category(part, 9) {
                to(Before::BackNine)
            } else {
                None
            }
        }
        Before::BackNine => after_nine(b),
        Before::BackMarker => after_marker(b),
        Before::BackNumberMarker => {
            if is_category(part, 2) {
                opposite(Kind::Warning, May::Nothing, b)
            } else {
                None
            }
        }
    }
}
