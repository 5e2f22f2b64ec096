// The walk over the balises, up to the first that no row allows.
ghost use Rattle.std.specs.Prelude.{◌≡◌, ◌≤◌};
ghost use Rattle.group_rows.specs.Open.{after};
ghost use Rattle.group_rows.specs.Stands.{rows_of, open_after, ended};
ghost use Rattle.group_rows.specs.Opening.{Ran};

use crate::stands::{Before, Tail, Walk};
use crate::{NoRow, Picked, Placed, after_first, before, is_category, tails};

// Where the walk stands after one balise more.
fn next(at: Walk, b: Placed) -> Option<Walk>
    ensures { open_after result ≡ after (rows_of at) b }
{
    match at {
        Walk::Before(passed) => before::next(passed, b),
        Walk::After(tail, picked) => match tail {
            Tail::Must(must) => tails::must_next(must, picked, b),
            Tail::May(may) => tails::may_next(may, picked, b),
        },
    }
}

// The row of a group that ends here, or refusal 13.
pub fn end_at(at: Walk) -> Result<Picked, NoRow>
    ensures { result ≡ ended at }
{
    match at {
        Walk::Before(_) => Err(NoRow),
        Walk::After(tail, picked) => match tail {
            Tail::Must(_) => Err(NoRow),
            Tail::May(_) => Ok(picked),
        },
    }
}

// How far the balises lead: the first count of them open a group, and the walk then stands at at.
#[derive(Clone, Copy)]
pub struct Run {
    pub at: Walk,
    pub count: usize,
}

// The walk over the first n balises, up to the first that no row allows; a second 12 is never
// allowed.
pub fn follow(p: [Placed; 5], n: usize) -> Run
    requires { n ≤ 5 }
    ensures { Ran p n result }
{
    let mut at = Walk::Before(Before::Nothing);
    let mut left = 1usize;
    let mut ahead = p;
    for i in 0..n {
        let b = ahead[0];
        let part = b.part;
        if is_category(part, 12) {
            if left == 0 {
                return Run { at, count: i };
            }
            left -= 1;
        }
        let Some(to) = next(at, b) else {
            return Run { at, count: i };
        };
        at = to;
        ahead = after_first(ahead);
    }
    Run { at, count: n }
}
