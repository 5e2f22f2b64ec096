// The balises of a group as read: p holds five, of which the first n count.
ghost use Rattle.std.specs.Prelude.{◌≡◌, ◌≤◌, take};
ghost use Rattle.group_rows.specs.Row.{any, first};
ghost use Rattle.group.specs.Inside.{says_sought};

use group_rows::Placed;

// The first balise of category c, if there is one.
pub fn first_of(p: [Placed; 5], n: usize, c: u8) -> Option<Placed>
    requires { n ≤ 5 }
    ensures { says_sought result ≡ first (any c) (take n p) }
{
    let mut ahead = p;
    for _ in 0..n {
        let b = ahead[0];
        let part = b.part;
        if group_rows::is_category(part, c) {
            return Some(b);
        }
        ahead = group_rows::after_first(ahead);
    }
    None
}
