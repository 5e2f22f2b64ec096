// A present group, and the entries that wait for it.
ghost use Rattle.std.specs.Prelude.{◌≡◌, ◌-◌, ◌≤◌, ◌<◌, length, take};
ghost use Rattle.acceptance.specs.Plan.{number_of};
ghost use Rattle.acceptance.specs.Taking.{is_present, within, waits, waiting, one_more, after_wanted, after_extra, take_group, no_part};

use crate::{Acceptance, Entry, Role, Took};
use group_rows::{Direction, Kind};

// How many entries a plan with this count has: at most 64.
pub fn entries_in(entries: [Entry; 64], count: usize) -> usize
    ensures value { result ≡ length (take count entries) }
    ensures entries_value { take result entries ≡ take count entries }
    ensures upper_bound { result ≤ 64 }
{
    if count < 64 { count } else { 64 }
}

// Whether a group is one of the present direction.
pub fn is_present(way: Direction) -> bool
    ensures { result ≡ is_present way }
{
    match way {
        Direction::Present => true,
        Direction::Opposite => false,
    }
}

// The number of a kind.
fn number_of(kind: Kind) -> u8
    ensures { result ≡ number_of kind }
{
    match kind {
        Kind::Signal => 0,
        Kind::Warning => 1,
        Kind::Annulled => 2,
        Kind::Line => 3,
        Kind::Route => 4,
    }
}

// The place less the tolerance, or 0.
fn less(place: u32, tolerance: u32) -> u32
    ensures { result ≡ place - tolerance }
{
    if place > tolerance {
        return place - tolerance;
    }
    0
}

// Whether a group's place lies within the tolerance of an entry's.
fn within(tolerance: u32, entry: u32, place: u64) -> bool
    ensures { result ≡ within tolerance entry place }
{
    (less(entry, tolerance) as u64 <= place) & (place <= entry as u64 + tolerance as u64)
}

// Whether the entry waits for a group of this kind at this place.
fn waits(tolerance: u32, place: u64, kind: Kind, entry: Entry) -> bool
    ensures { result ≡ waits tolerance place kind entry }
{
    let own = entry.kind;
    entry.met.is_none()
        & ((number_of(own) == number_of(kind)) & within(tolerance, entry.place, place))
}

// The index of the first of n entries that waits for the group; n if none does.
fn waiting(tolerance: u32, place: u64, kind: Kind, entries: [Entry; 64], n: usize) -> usize
    requires { n ≤ 64 }
    ensures { result ≡ waiting tolerance place kind (take n entries) }
{
    for i in 0..n {
        let entry = entries[i];
        if waits(tolerance, place, kind, entry) {
            return i;
        }
    }
    n
}

// The run after a group at this place met the entry with this index.
fn after_wanted(run: Acceptance, i: usize, place: u64) -> Acceptance
    requires { i < 64 }
    ensures { result ≡ after_wanted run i place }
{
    let mut entries = run.entries;
    let entry = entries[i];
    let kind = entry.kind;
    entries[i] = Entry {
        place: entry.place,
        kind,
        met: Some(place),
    };
    Acceptance {
        entries,
        count: run.count,
        tolerance: run.tolerance,
        extra: run.extra,
    }
}

// One more; the largest number of 64 bits stands for that many or more.
pub fn one_more(n: u64) -> u64
    ensures { result ≡ one_more n }
{
    if n < u64::MAX {
        return n + 1;
    }
    n
}

// The run after an extra group.
fn after_extra(run: Acceptance) -> Acceptance
    ensures { result ≡ after_extra run }
{
    let entries = run.entries;
    Acceptance {
        entries,
        count: run.count,
        tolerance: run.tolerance,
        extra: one_more(run.extra),
    }
}

// A present group of this kind at this place.
pub fn group(run: Acceptance, place: u64, kind: Kind) -> Took
    ensures { result ≡ take_group run place kind }
{
    let entries = run.entries;
    let n = entries_in(entries, run.count);
    let i = waiting(run.tolerance, place, kind, entries, n);
    if i < n {
        return Took {
            state: after_wanted(run, i, place),
            answer: Role::Wanted(i),
        };
    }
    Took {
        state: after_extra(run),
        answer: Role::Extra,
    }
}

// A line that takes no part.
pub fn no_part(run: Acceptance) -> Took
    ensures { result ≡ no_part run }
{
    Took {
        state: run,
        answer: Role::NoPart,
    }
}
