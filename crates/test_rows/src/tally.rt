// What is counted over a file's entries.
ghost use Rattle.std.specs.Prelude.{◌≡◌};
ghost use Rattle.test_rows.specs.Counting.{no_entries, one_entry};

use crate::say;
use figures::more;

#[derive(Clone, Copy)]
pub struct Tally {
    pub compared: u32,
    pub righted: u32,
    pub differences: u32,
}

pub fn none() -> Tally
    ensures { result ≡ no_entries }
{
    Tally {
        compared: 0,
        righted: 0,
        differences: 0,
    }
}

// An entry, by whether what the scan shows was put right, and whether it came as it must.
pub fn entry(t: Tally, righted: bool, so: bool) -> Tally
    ensures { result ≡ one_entry t righted so }
{
    Tally {
        compared: more(t.compared, true),
        righted: more(t.righted, righted),
        differences: more(t.differences, !so),
    }
}

// A line that holds no entry, or not the next one.
pub fn out_of_place(rt: &impl Print, t: Tally, line: &[u8]) -> Tally {
    say::text(rt, b"a difference: no entry, or out of place: ");
    say::text(rt, line);
    say::text(rt, b"\n");
    entry(t, false, false)
}

// Ends the line of an entry: where it did not come as it must, with what must come.
pub fn end_line(rt: &impl Print, so: bool, wanted: &[u8]) {
    if !so {
        say::text(rt, b", a difference: it must be ");
        say::text(rt, wanted);
    }
    say::text(rt, b"\n");
}

// Tells the counts of a table that a scan shows.
pub fn tell_table(rt: &impl Print, name: &[u8], t: Tally) {
    say::text(rt, name);
    say::number(rt, b": entries ", t.compared);
    say::number(rt, b", put right ", t.righted);
    say::number(rt, b", differences ", t.differences);
    say::text(rt, b"\n");
}

// Tells the counts of the groups.
pub fn tell_groups(rt: &impl Print, t: Tally) {
    say::number(rt, b"groups: entries ", t.compared);
    say::number(rt, b", differences ", t.differences);
    say::text(rt, b"\n");
}
