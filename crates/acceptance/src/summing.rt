// The sums of a run.
ghost use Rattle.std.specs.Prelude.{◌≡◌, ◌+◌, ◌≤◌, take};
ghost use Rattle.acceptance.specs.Report.{met_in, up_to_most};

use crate::Entry;

// How many of the first n entries are met.
pub fn met(entries: [Entry; 64], n: usize) -> usize
    requires { n ≤ 64 }
    ensures value { result ≡ met_in (take n entries) }
    ensures upper_bound { result ≤ n }
{
    let mut count = 0;
    for i in (0..n).rev() {
        if entries[i].met.is_some() {
            count += 1;
        }
    }
    count
}

// Two counts together, up to the largest count.
pub fn together(met: usize, extra: u64) -> u64
    ensures { result ≡ up_to_most (met + extra) }
{
    let met = met as u64;
    if extra > u64::MAX - met {
        return u64::MAX;
    }
    met + extra
}
