// The depot's acceptance run over the lines of a ride: the entries of a plan of the test track are
// met or absent, the present groups wanted or extra.
// Promises: an entry is met by the first present group of its kind whose A place lies within the
// tolerance, and each such group is wanted; all other present groups are extra; nothing else takes
// part.
// Specification: specs/Plan.antt (a plan), specs/Taking.antt (a line is taken), specs/Report.antt,
// specs/Says.antt (the refusals).
#![tactic(auto)]

ghost use Rattle.std.specs.Prelude.{◌≡◌};
ghost use Rattle.acceptance.specs.Plan.{plan};
ghost use Rattle.acceptance.specs.Taking.{take_line};
ghost use Rattle.acceptance.specs.Report.{report, sum_up};
ghost use Rattle.acceptance.specs.Says.{says_planned};

mod reading;
mod summing;
mod taking;

use group_rows::Kind;
use ride::Line;
pub use taking::one_more;

// An entry of a plan; the A place of the group that met it, once one did.
#[derive(Clone, Copy)]
pub struct Entry {
    pub place: u32,
    pub kind: Kind,
    pub met: Option<u64>,
}

// A run: the plan's entries, of which there are `count`, with what met them; the tolerance; how
// many groups were extra.
#[derive(Clone, Copy)]
pub struct Acceptance {
    pub entries: [Entry; 64],
    pub count: usize,
    pub tolerance: u32,
    pub extra: u64,
}

// Why a plan is refused: for the tolerance (28), for a record, the length or the count (26), or for
// entries out of order or too near (27).
#[derive(Clone, Copy, PartialEq, Eq)]
pub enum PlanRefused {
    Tolerance,
    Record,
    Near,
}

// What reading a plan answers: a run over it that has not begun, and how it was judged; a refused
// one is the empty plan.
// Stays as it is: PlansUntouched of demands says that the plan beside a refusal is the empty one.
#[derive(Clone, Copy)]
pub struct Planned {
    pub plan: Acceptance,
    pub judged: Result<(), PlanRefused>,
}

// What part a line takes: the group met the entry with this index, it is extra, or the line takes
// no part.
#[derive(Clone, Copy)]
pub enum Role {
    Wanted(usize),
    Extra,
    NoPart,
}

// What taking a line answers: the run after it, and the line's part.
#[derive(Clone, Copy)]
pub struct Took {
    pub state: Acceptance,
    pub answer: Role,
}

// The sums of a run. As many groups are wanted as entries are met.
#[derive(Clone, Copy)]
pub struct Sums {
    pub entries: usize,
    pub met: usize,
    pub absent: usize,
    pub present: u64,
    pub extra: u64,
}

// The plan that the bytes are, with this tolerance, not begun; or the empty plan with 28, 26, 27 in
// this order.
pub fn plan(bytes: &[u8], tolerance: u32) -> Planned
    ensures { says_planned result ≡ plan bytes.now tolerance }
{
    if tolerance > 500 {
        return reading::refused(PlanRefused::Tolerance);
    }
    if !reading::well_formed(bytes) {
        return reading::refused(PlanRefused::Record);
    }
    let entries = reading::entries(bytes);
    let count = bytes.len() / 8;
    if !reading::apart(entries, count, tolerance) {
        return reading::refused(PlanRefused::Near);
    }
    Planned {
        plan: reading::begun(entries, count, tolerance),
        judged: Ok(()),
    }
}

// A line of the ride taken: a present group meets the first entry of its kind that is not met and
// lies within the tolerance, and is wanted, else it is extra; any other line takes no part and
// changes nothing.
pub fn take(run: Acceptance, line: Line) -> Took
    ensures { result ≡ take_line run line }
{
    match line {
        Line::Group(seen) => {
            let way = seen.direction;
            let kind = seen.kind;
            if taking::is_present(way) {
                taking::group(run, seen.place, kind)
            } else {
                taking::no_part(run)
            }
        }
        Line::Fault(_, _) => taking::no_part(run),
        Line::Missed(_) => taking::no_part(run),
        Line::Record(_, _) => taking::no_part(run),
        Line::Trace(_) => taking::no_part(run),
    }
}

// The entry with this index, the first has 0, absent or with the place of the group that met it; or
// that there is none.
pub fn report(run: Acceptance, i: usize) -> Option<Entry>
    ensures { result ≡ report run i }
{
    let entries = run.entries;
    if i < taking::entries_in(entries, run.count) {
        return Some(entries[i]);
    }
    None
}

// How many entries there are, are met and are absent; how many present groups there were, and were
// extra.
pub fn sum_up(run: Acceptance) -> Sums
    ensures { result ≡ sum_up run }
{
    let all = run.entries;
    let entries = taking::entries_in(all, run.count);
    let met = summing::met(all, entries);
    Sums {
        entries,
        met,
        absent: entries - met,
        present: summing::together(met, run.extra),
        extra: run.extra,
    }
}
