// The balise whose figure breaks the rule of distances.
ghost use Rattle.std.specs.Prelude.{◌≡◌, ◌≤◌, take, not, ◌&&◌};
ghost use Rattle.group.specs.Distance.{is_preset, no_increase};
ghost use Rattle.group.specs.Judge.{y_of};
ghost use Rattle.group.specs.Inside.{says_sought};
ghost use Rattle.group_reason.specs.Explain.{one_to_fourteen, b_breaks, why_present};
ghost use Rattle.group_reason.specs.Inside.{sought_from, why_of};
ghost use Rattle.group_reason.specs.Says.{says_reason};

use crate::Reason;
use group_rows::{Kind, Placed, y_of, z_of};

// A balise that was looked for, if it is there, and its index from 0; where it is not there, how
// many balises there are.
#[derive(Clone, Copy)]
pub struct Sought {
    pub balise: u8,
    pub found: Option<Placed>,
}

// The first of the first n balises that is of category c.
fn first_of(p: [Placed; 5], n: usize, c: u8) -> Sought
    requires { n ≤ 5 }
    ensures { result ≡ sought_from c 0 (take n p) }
{
    for i in 0..n {
        let b = p[i];
        let part = b.part;
        if group_rows::is_category(part, c) {
            return Sought {
                balise: i as u8,
                found: Some(b),
            };
        }
    }
    Sought {
        balise: n as u8,
        found: None,
    }
}

// Whether a figure is not 1 to 14.
fn beyond(figure: u8) -> bool
    ensures { result ≡ not (one_to_fourteen figure) }
{
    !((1 <= figure) & (figure <= 14))
}

// Whether B's figures break the rule of distances, with a 14 or without.
fn b_breaks(by: u8, bz: u8, with: bool) -> bool
    ensures { result ≡ b_breaks by bz with }
{
    if with {
        (14 < by) | (bz != 0)
    } else {
        (14 < by) | beyond(bz)
    }
}

// Whether B breaks M-101's rule: a preset point with such a target.
fn is_barred(b: Sought, az: u8) -> bool
    ensures { result ≡ is_preset (y_of (says_sought b.found)) && no_increase az }
{
    (b.found.map_or(0, |b| y_of(b.part)) == 14) & group::no_increase(az)
}

// By B and then by C, with M-101's rule broken or not.
fn of_both(barred: bool, b: Sought, c: Sought) -> Reason
    ensures { says_reason result ≡ why_of barred b c }
{
    let by = b.found.map_or(0, |b| y_of(b.part));
    let bz = b.found.map_or(0, |b| z_of(b.part));
    if barred | b_breaks(by, bz, c.found.is_some()) {
        return Reason::NoDistance {
            balise: b.balise,
            place: b.found.map_or(0, |b| b.place),
        };
    }
    match c.found {
        Some(found) if beyond(y_of(found.part)) => Reason::NoDistance {
            balise: c.balise,
            place: found.place,
        },
        _ => Reason::None,
    }
}

// Why a present group of this kind and AZ was refused, or no reason.
pub fn why_present(kind: Kind, az: u8, p: [Placed; 5], n: usize) -> Reason
    requires { n ≤ 5 }
    ensures { says_reason result ≡ why_present kind az (take n p) }
{
    match kind {
        Kind::Signal => {
            let b = first_of(p, n, 9);
            of_both(is_barred(b, az), b, first_of(p, n, 14))
        }
        Kind::Warning => of_both(false, first_of(p, n, 9), first_of(p, n, 14)),
        Kind::Annulled => Reason::None,
        Kind::Line => Reason::None,
        Kind::Route => Reason::None,
    }
}
