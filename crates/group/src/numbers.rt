// The number of a group.
ghost use Rattle.std.specs.Prelude.{◌≡◌};
ghost use Rattle.group.specs.declared.Number.{Number};
ghost use Rattle.group.specs.Numbers.{number_or};
ghost use Rattle.group.specs.Inside.{else_number};

use crate::Number;
use group_rows::Part;

// The figure of a number balise (12); of any other, none.
fn number_in(part: Part) -> Number
    ensures { result ≡ number_or part Number.None }
{
    match part {
        Part::Figures(_, _, _) => Number::None,
        Part::Number(m) => Number::Figure(m),
        Part::Marker => Number::None,
    }
}

// The number found among the balises so far, or else that of the next one.
pub fn else_number(found: Number, part: Part) -> Number
    ensures { result ≡ else_number found part }
{
    match found {
        Number::None => number_in(part),
        Number::Figure(m) => Number::Figure(m),
    }
}
