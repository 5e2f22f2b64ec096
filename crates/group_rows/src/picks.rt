// A balise that is A: its category and its figures, matched by ranges, pick row, kind and speed.
ghost use Rattle.std.specs.Prelude.{◌≡◌, [], ◌∷◌};
ghost use Rattle.group_rows.specs.Row.{found};
ghost use Rattle.group_rows.specs.Open.{rest, after};
ghost use Rattle.group_rows.specs.Stands.{must_be, may_be, rows_before, open_after};

use crate::stands::{Before, May, Must, Tail, Walk};
use crate::{Direction, Kind, Part, Picked, Placed};

// The balise is A of a present row of this kind and speed, with this to come.
pub fn present(kind: Kind, speed: u16, next: Must, a: Placed) -> Option<Walk>
    ensures { open_after result ≡ rest Direction.Present kind speed (found a) (must_be next) ∷ [] }
{
    let direction = Direction::Present;
    Some(Walk::After(
        Tail::Must(next),
        Picked {
            direction,
            kind,
            speed,
            a,
        },
    ))
}

// The balise is A of an opposite row of this kind, with this to come.
pub fn opposite(kind: Kind, next: May, a: Placed) -> Option<Walk>
    ensures { open_after result ≡ rest Direction.Opposite kind 0 (found a) (may_be next) ∷ [] }
{
    let direction = Direction::Opposite;
    Some(Walk::After(
        Tail::May(next),
        Picked {
            direction,
            kind,
            speed: 0,
            a,
        },
    ))
}

// To this stand before A.
pub fn to(at: Before) -> Option<Walk>
    ensures { open_after result ≡ rows_before at }
{
    Some(Walk::Before(at))
}

// A 3 as the first balise: a line speed board by AY and AZ.
pub fn line(y: u8, z: u8, b: Placed) -> Option<Walk>
    ensures { b.part ≡ Part.Figures 3 y z → open_after result ≡ after (rows_before Before.Nothing) b }
{
    match y {
        0..=8 => match z {
            0..=13 => present(Kind::Line, 0, Must::Five, b),
            _ => None,
        },
        9..=14 => match z {
            0..=13 => present(Kind::Line, 0, Must::Marker, b),
            _ => None,
        },
        _ => None,
    }
}

// A 5 as the first balise: a route board, its speed by AY and AZ.
pub fn route(y: u8, z: u8, b: Placed) -> Option<Walk>
    ensures { b.part ≡ Part.Figures 5 y z → open_after result ≡ after (rows_before Before.Nothing) b }
{
    match y {
        2 => match z {
            0..=13 => present(Kind::Route, 10 * z as u16, Must::ThreeFiveSeven, b),
            _ => None,
        },
        4 => match z {
            10 => present(Kind::Route, 140, Must::ThreeFiveSeven, b),
            _ => None,
        },
        _ => None,
    }
}
