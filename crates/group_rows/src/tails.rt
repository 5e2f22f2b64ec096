// One balise more after A has passed.
ghost use Rattle.std.specs.Prelude.{◌≡◌, [], ◌∷◌};
ghost use Rattle.words.specs.Answer.{pick};
ghost use Rattle.group_rows.specs.Row.{all, ◌to◌, category, one_of, M, meets, any, may};
ghost use Rattle.group_rows.specs.Open.{after};
ghost use Rattle.group_rows.specs.Stands.{must_be, may_be, with_rest, open_after};

use crate::stands::{May, Must, Tail, Walk};
use crate::{Part, Picked, Placed, is_category};

// Whether a balise is a 9 with Y 0 to 13.
fn is_low_nine(part: Part) -> bool
    ensures { result ≡ meets (category 9 (0 to 13) all) part }
{
    match part {
        Part::Figures(x, y, _) => match x {
            9 => match y {
                0..=13 => true,
                _ => false,
            },
            _ => false,
        },
        Part::Number(_) => false,
        Part::Marker => false,
    }
}

// Whether a balise is a marker.
fn is_marker(part: Part) -> bool
    ensures { result ≡ meets M part }
{
    match part {
        Part::Figures(_, _, _) => false,
        Part::Number(_) => false,
        Part::Marker => true,
    }
}

// Whether a balise is a 3, a 5 or a 7.
fn is_three_five_seven(part: Part) -> bool
    ensures { result ≡ meets (one_of (3 ∷ 5 ∷ 7 ∷ [])) part }
{
    match part {
        Part::Figures(x, _, _) => match x {
            3 | 5 | 7 => true,
            _ => false,
        },
        Part::Number(_) => false,
        Part::Marker => false,
    }
}

// To this, if so.
fn to_if(so: bool, next: May, picked: Picked) -> Option<Walk>
    ensures { open_after result ≡ pick so (with_rest picked (may_be next) ∷ []) [] }
{
    if so {
        Some(Walk::After(Tail::May(next), picked))
    } else {
        None
    }
}

// Where the walk stands after one balise more, if this must come next.
pub fn must_next(must: Must, picked: Picked, b: Placed) -> Option<Walk>
    ensures { open_after result ≡ after (with_rest picked (must_be must) ∷ []) b }
{
    let part = b.part;
    match must {
        Must::Nine => to_if(is_category(part, 9), May::Fourteen, picked),
        Must::LowNine => to_if(is_low_nine(part), May::Fourteen, picked),
        Must::Five => to_if(is_category(part, 5), May::Nothing, picked),
        Must::Marker => to_if(is_marker(part), May::Nothing, picked),
        Must::ThreeFiveSeven => to_if(is_three_five_seven(part), May::Nothing, picked),
    }
}

// The same where an optional c and then an optional 12 may come.
fn optional(c: u8, picked: Picked, b: Placed) -> Option<Walk>
    requires { c ≡ 12 → ⊥ }
    ensures { open_after result ≡ after (with_rest picked (may (any c) ∷ may (any 12) ∷ []) ∷ []) b }
{
    let part = b.part;
    if is_category(part, c) {
        return Some(Walk::After(Tail::May(May::Twelve), picked));
    }
    to_if(is_category(part, 12), May::Nothing, picked)
}

// Where the walk stands after one balise more, if this may come next.
pub fn may_next(may: May, picked: Picked, b: Placed) -> Option<Walk>
    ensures { open_after result ≡ after (with_rest picked (may_be may) ∷ []) b }
{
    let part = b.part;
    match may {
        May::Fourteen => optional(14, picked, b),
        May::Eight => optional(8, picked, b),
        May::Twelve => to_if(is_category(part, 12), May::Nothing, picked),
        May::Nothing => None,
    }
}
