// The balises of a group as read, and the rows that they fit: one walk over them tells the row, or
// how far they lead.
// Promises: balises fit a row with its direction, kind, speed and A, or are refused with 13,
// exactly as document 01's rows say.
// Specification: specs/Rows.antt (the rows), specs/Row.antt (when balises fit one),
// specs/Fitting.antt, specs/Opening.antt.
// Laws: no group fits a row of each direction, for the first balise that is no 12 tells it
// (specs/OneWay.antt); at most one row of a direction fits (proofs/Unique.antt).
#![tactic(auto)]

ghost use Rattle.std.specs.Prelude.{◌≡◌, ltb, ◌++◌, take, drop};
ghost use Rattle.words.specs.Answer.{pick};
ghost use Rattle.group_rows.specs.Row.{is_category, Y, Z};
ghost use Rattle.group_rows.specs.Fitting.{fitting, says_fitted};
ghost use Rattle.group_rows.specs.Opening.{Longest};

mod before;
mod picks;
mod running;
mod stands;
mod tails;

// A balise as read: the figures of X, Y and Z, the number of a number balise (12), or a marker.
#[derive(Clone, Copy)]
pub enum Part {
    Figures(u8, u8, u8),
    Number(u16),
    Marker,
}

// A balise as read, with its place.
#[derive(Clone, Copy)]
pub struct Placed {
    pub place: u32,
    pub part: Part,
}

// The kinds of groups.
#[derive(Clone, Copy)]
pub enum Kind {
    Signal,
    Warning,
    Annulled,
    Line,
    Route,
}

// The direction of a group.
#[derive(Clone, Copy)]
pub enum Direction {
    Present,
    Opposite,
}

// What a row says of the balises that fit it: direction and kind, the speed of a route board (0 for
// any other), and the balise that the row calls A.
#[derive(Clone, Copy)]
pub struct Picked {
    pub direction: Direction,
    pub kind: Kind,
    pub speed: u16,
    pub a: Placed,
}

// Refusal 13: no row fits.
#[derive(Clone, Copy, PartialEq, Eq)]
pub struct NoRow;

// Whether a balise is of category c; a number balise is a 12, a marker is of none.
pub fn is_category(part: Part, c: u8) -> bool
    ensures { result ≡ is_category c part }
{
    match part {
        Part::Figures(x, _, _) => x == c,
        Part::Number(_) => 12 == c,
        Part::Marker => false,
    }
}

// The figure Y of a balise; a number balise and a marker have none: 0.
pub fn y_of(part: Part) -> u8
    ensures { result ≡ Y part }
{
    match part {
        Part::Figures(_, y, _) => y,
        Part::Number(_) => 0,
        Part::Marker => 0,
    }
}

// The figure Z of a balise; a number balise and a marker have none: 0.
pub fn z_of(part: Part) -> u8
    ensures { result ≡ Z part }
{
    match part {
        Part::Figures(_, _, z) => z,
        Part::Number(_) => 0,
        Part::Marker => 0,
    }
}

// The five after the first; the last stands twice, so that they are five again.
pub fn after_first<T: Copy>(p: [T; 5]) -> [T; 5]
    ensures { result ≡ drop 1 p ++ drop 4 p }
{
    [p[1], p[2], p[3], p[4], p[4]]
}

// How many of the five balises p count, if n are meant.
fn at_most_five(n: usize) -> usize
    ensures { result ≡ pick (ltb n 5) n 5 }
{
    if n < 5 { n } else { 5 }
}

// What the row says that the first n balises fit: direction, kind, the speed of a route board, and
// A; or refusal 13.
pub fn fit(p: [Placed; 5], n: usize) -> Result<Picked, NoRow>
    ensures { says_fitted result ≡ fitting (take n p) }
{
    let few = at_most_five(n);
    let run = running::follow(p, few);
    if run.count < few {
        return Err(NoRow);
    }
    let at = run.at;
    running::end_at(at)
}

// How many of the first n balises, from the first on, open a permitted group of either direction:
// some group begins with so many, and none with one more.
pub fn opening(p: [Placed; 5], n: usize) -> usize
    ensures { Longest (take n p) result }
{
    let few = at_most_five(n);
    let run = running::follow(p, few);
    run.count
}
