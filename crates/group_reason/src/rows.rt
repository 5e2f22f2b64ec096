// By the row that the balises fit, or how far they open one.
ghost use Rattle.std.specs.Prelude.{◌≡◌, ◌≤◌, take};
ghost use Rattle.group_rows.specs.Fitting.{fitting};
ghost use Rattle.group_reason.specs.Explain.{why_row, why_fit};
ghost use Rattle.group_reason.specs.Says.{says_reason};

use crate::{Reason, figures};
use group_rows::{Direction, NoRow, Picked, Placed, z_of};

// Why balises that fit this row were refused, or no reason.
fn why_row(row: Picked, p: [Placed; 5], n: usize) -> Reason
    requires { n ≤ 5 }
    ensures { says_reason result ≡ why_row row.direction row (take n p) }
{
    let direction = row.direction;
    let kind = row.kind;
    let a = row.a;
    let part = a.part;
    match direction {
        Direction::Present => figures::why_present(kind, z_of(part), p, n),
        Direction::Opposite => Reason::None,
    }
}

// Why the first n balises, which were read, were refused, or no reason.
pub fn why_fit(p: [Placed; 5], n: usize) -> Reason
    requires { n ≤ 5 }
    ensures { says_reason result ≡ why_fit (fitting (take n p)) (take n p) }
{
    match group_rows::fit(p, n) {
        Ok(row) => why_row(row, p, n),
        Err(NoRow) => Reason::NoRow {
            run: group_rows::opening(p, n) as u8,
            of: n as u8,
        },
    }
}
