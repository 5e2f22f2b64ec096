// The lines, piece by piece, where there is room for them.
ghost use Rattle.std.specs.Prelude.{◌≡◌, ◌+◌, ◌≤◌, ◌++◌, length};
ghost use Rattle.text.specs.Text.{codes, decimal};
ghost use Rattle.text.specs.Put.{put, came};
ghost use Rattle.acceptance_text.specs.Lines.{part_words, group_line, met_words, entry_line, sum_line, trouble_line, verdict, refused_line};

use acceptance::{Entry, Role, Sums, one_more};
use group_rows::Kind;
use refusals::put_refused;
use ride_text::put_kind;
use text::{put, put_number};

// A group's part.
fn spell_part(part: Role, buf: &mut [u8], at: usize) -> usize
    requires { at + length (part_words part) ≤ length buf.old }
    ensures { came result buf.new ≡ put (part_words part) buf.old at }
{
    match part {
        Role::Wanted(i) => {
            let a = put_number(b" wanted ", one_more(i as u64), buf, at);
            put(b"\n", buf, a)
        }
        Role::Extra => put(b" extra\n", buf, at),
        Role::NoPart => put(b" no part\n", buf, at),
    }
}

// The line of a group.
pub fn spell_group(place: u64, kind: Kind, part: Role, buf: &mut [u8], at: usize) -> usize
    requires { at + length (group_line place kind part) ≤ length buf.old }
    ensures { came result buf.new ≡ put (group_line place kind part) buf.old at }
{
    let a = put_number(b"", place, buf, at);
    let b = put_kind(kind, buf, a);
    spell_part(part, buf, b)
}

// Whether an entry was met, and where.
fn spell_met(met: Option<u64>, buf: &mut [u8], at: usize) -> usize
    requires { at + length (met_words met) ≤ length buf.old }
    ensures { came result buf.new ≡ put (met_words met) buf.old at }
{
    match met {
        None => put(b" absent\n", buf, at),
        Some(place) => {
            let a = put_number(b" met at ", place, buf, at);
            put(b"\n", buf, a)
        }
    }
}

// The line of the entry with this index.
pub fn spell_entry(i: usize, entry: Entry, buf: &mut [u8], at: usize) -> usize
    requires { at + length (entry_line i entry) ≤ length buf.old }
    ensures { came result buf.new ≡ put (entry_line i entry) buf.old at }
{
    let kind = entry.kind;
    let met = entry.met;
    let a = put_number(b"entry ", one_more(i as u64), buf, at);
    let b = put_number(b" at ", entry.place as u64, buf, a);
    let c = put_kind(kind, buf, b);
    spell_met(met, buf, c)
}

// The entries of the sum.
fn spell_entries(entries: usize, met: usize, absent: usize, buf: &mut [u8], at: usize) -> usize
    requires { at + length (decimal entries ++ (codes " entries: " ++ decimal met) ++ (codes " met, " ++ decimal absent)) ≤ length buf.old }
    ensures { came result buf.new ≡ put (decimal entries ++ (codes " entries: " ++ decimal met) ++ (codes " met, " ++ decimal absent)) buf.old at }
{
    let a = put_number(b"", entries as u64, buf, at);
    let b = put_number(b" entries: ", met as u64, buf, a);
    put_number(b" met, ", absent as u64, buf, b)
}

// The groups of the sum.
fn spell_groups(present: u64, wanted: usize, extra: u64, buf: &mut [u8], at: usize) -> usize
    requires { at + length ((codes " absent; " ++ decimal present) ++ (codes " present groups: " ++ decimal wanted) ++ (codes " wanted, " ++ decimal extra) ++ codes " extra\n") ≤ length buf.old }
    ensures { came result buf.new ≡ put ((codes " absent; " ++ decimal present) ++ (codes " present groups: " ++ decimal wanted) ++ (codes " wanted, " ++ decimal extra) ++ codes " extra\n") buf.old at }
{
    let a = put_number(b" absent; ", present, buf, at);
    let b = put_number(b" present groups: ", wanted as u64, buf, a);
    let c = put_number(b" wanted, ", extra, buf, b);
    put(b" extra\n", buf, c)
}

// The line of the sum.
pub fn spell_sum(sums: Sums, buf: &mut [u8], at: usize) -> usize
    requires { at + length (sum_line sums) ≤ length buf.old }
    ensures { came result buf.new ≡ put (sum_line sums) buf.old at }
{
    let a = spell_entries(sums.entries, sums.met, sums.absent, buf, at);
    spell_groups(sums.present, sums.met, sums.extra, buf, a)
}

// Both counts of what went wrong.
fn spell_counts(faults: u64, records: u64, buf: &mut [u8], at: usize) -> usize
    requires { at + length ((codes "faults " ++ decimal faults) ++ (codes ", records refused " ++ decimal records) ++ codes ": see explain\n") ≤ length buf.old }
    ensures { came result buf.new ≡ put ((codes "faults " ++ decimal faults) ++ (codes ", records refused " ++ decimal records) ++ codes ": see explain\n") buf.old at }
{
    let a = put_number(b"faults ", faults, buf, at);
    let b = put_number(b", records refused ", records, buf, a);
    put(b": see explain\n", buf, b)
}

// What went wrong, where anything did.
fn spell_trouble(faults: u64, records: u64, buf: &mut [u8], at: usize) -> usize
    requires { at + length (trouble_line faults records) ≤ length buf.old }
    ensures { came result buf.new ≡ put (trouble_line faults records) buf.old at }
{
    if faults > 0 {
        return spell_counts(faults, records, buf, at);
    }
    if records > 0 {
        return spell_counts(faults, records, buf, at);
    }
    put(b"", buf, at)
}

// Whether the ride passed.
fn spell_verdict(passed: bool, buf: &mut [u8], at: usize) -> usize
    requires { at + length (verdict passed) ≤ length buf.old }
    ensures { came result buf.new ≡ put (verdict passed) buf.old at }
{
    if passed {
        return put(b"passed\n", buf, at);
    }
    put(b"not passed\n", buf, at)
}

// What went wrong, and whether the ride passed.
pub fn spell_last(passed: bool, faults: u64, records: u64, buf: &mut [u8], at: usize) -> usize
    requires { at + length (trouble_line faults records ++ verdict passed) ≤ length buf.old }
    ensures { came result buf.new ≡ put (trouble_line faults records ++ verdict passed) buf.old at }
{
    let a = spell_trouble(faults, records, buf, at);
    spell_verdict(passed, buf, a)
}

// The line of a refused plan.
pub fn spell_refused(number: u8, buf: &mut [u8], at: usize) -> usize
    requires { at + length (refused_line number) ≤ length buf.old }
    ensures { came result buf.new ≡ put (refused_line number) buf.old at }
{
    let a = put(b"plan ", buf, at);
    put_refused(number, buf, a)
}
