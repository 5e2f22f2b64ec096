// A plan from its bytes.
ghost use Rattle.std.specs.Prelude.{◌≡◌, ◌+◌, ◌-◌, ◌*◌, ◌/◌, ◌≤◌, ◌++◌, length, take, drop, replicate};
ghost use Rattle.ride.specs.Over.{records};
ghost use Rattle.acceptance.specs.Plan.{kind_of, is_good, all_good, well_formed, entry_of, entries_of, apart, no_entry, empty_plan};

use crate::{Acceptance, Entry, PlanRefused, Planned};
use group_rows::Kind;

// A place of a plan that no entry has taken.
const NO_ENTRY: Entry = Entry {
    place: 0,
    kind: Kind::Signal,
    met: None,
};

// Room for the entries of a plan.
const NO_ENTRIES: [Entry; 64] = [NO_ENTRY; 64];

// Room for the entries of a plan, none taken.
fn no_entries() -> [Entry; 64]
    ensures { result ≡ replicate 64 no_entry }
{
    NO_ENTRIES
}

// A run over a plan that has not begun.
pub fn begun(entries: [Entry; 64], count: usize, tolerance: u32) -> Acceptance
    ensures { result ≡ record { entries = entries; count = count; tolerance = tolerance; extra = 0 } }
{
    Acceptance {
        entries,
        count,
        tolerance,
        extra: 0,
    }
}

// A refused plan: the empty one.
pub fn refused(why: PlanRefused) -> Planned
    ensures { result ≡ record { plan = empty_plan; judged = Err why } }
{
    Planned {
        plan: begun(no_entries(), 0, 0),
        judged: Err(why),
    }
}

// The kind with this number.
fn kind_of(n: u8) -> Kind
    ensures { result ≡ kind_of n }
{
    match n {
        0 => Kind::Signal,
        1 => Kind::Warning,
        2 => Kind::Annulled,
        3 => Kind::Line,
        _ => Kind::Route,
    }
}

// Whether the record from `at` on is good.
fn is_good(bytes: &[u8], at: usize) -> bool
    requires { at + 8 ≤ length bytes.now }
    ensures { result ≡ is_good (take 8 (drop at bytes.now)) }
{
    (bytes[at + 4] <= 4) & ((bytes[at + 5] == 0) & (bytes[at + 6] == 0) & (bytes[at + 7] == 0))
}

// The entry of the record from `at` on.
fn entry_at(bytes: &[u8], at: usize) -> Entry
    requires { at + 8 ≤ length bytes.now }
    ensures { result ≡ entry_of (take 8 (drop at bytes.now)) }
{
    let high = bytes[at] as u32 * 256 + bytes[at + 1] as u32;
    let low = bytes[at + 2] as u32 * 256 + bytes[at + 3] as u32;
    Entry {
        place: high * 65536 + low,
        kind: kind_of(bytes[at + 4]),
        met: None,
    }
}

// Whether all records are good.
fn all_good(bytes: &[u8]) -> bool
    ensures { result ≡ all_good (records bytes.now) }
{
    let count = bytes.len() / 8;
    for i in 0..count {
        if !is_good(bytes, i * 8) {
            return false;
        }
    }
    true
}

// Whether the length, the count and all records are good.
pub fn well_formed(bytes: &[u8]) -> bool
    ensures { result ≡ well_formed bytes.now }
{
    if bytes.len() % 8 != 0 {
        return false;
    }
    if bytes.len() / 8 > 64 {
        return false;
    }
    all_good(bytes)
}

// The entries, and room after them.
pub fn entries(bytes: &[u8]) -> [Entry; 64]
    requires { length bytes.now / 8 ≤ 64 }
    ensures { result ≡ entries_of bytes.now ++ replicate (64 - length (entries_of bytes.now)) no_entry }
{
    let count = bytes.len() / 8;
    let mut entries = no_entries();
    for i in 0..count {
        entries[i] = entry_at(bytes, i * 8);
    }
    entries
}

// Whether each of the first n entries lies more than twice the tolerance before the next.
pub fn apart(entries: [Entry; 64], n: usize, tolerance: u32) -> bool
    requires { n ≤ 64 }
    ensures { result ≡ apart tolerance (take n entries) }
{
    for i in 1..n {
        let one = entries[i - 1];
        let next = entries[i];
        if next.place as u64 <= one.place as u64 + 2 * tolerance as u64 {
            return false;
        }
    }
    true
}
