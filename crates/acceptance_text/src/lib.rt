// A depot's acceptance run as text: the records of a ride taken block by block, with a line for
// each present group; and the report at the end: the entries of the plan, the sum, what a depot
// signs; a refused plan.
// Promises: a line is written to the letter and whole, or not at all; bytes around it stay; a run
// goes on as `acceptance` says, over the lines of the ride.
// Specification: specs/Lines.antt (the words), specs/Taking.antt (lines taken), specs/Accept.antt
// (a block of records, and the end), specs/Says.antt (the answers); specs/Inside.antt (what the
// functions inside say); a text in a buffer is `text`'s specs/Put.antt.
#![tactic(auto)]

ghost use Rattle.std.specs.Prelude.{◌≡◌};
ghost use Rattle.text.specs.Put.{put, came};
ghost use Rattle.acceptance_text.specs.Lines.{entry_line, sum_line, is_passed, last_lines, refused_line};
ghost use Rattle.acceptance_text.specs.Accept.{accept, finish};
ghost use Rattle.acceptance_text.specs.Says.{says_advanced, says_finished};

mod lines;
mod records;
mod taking;

use acceptance::{Acceptance, Entry, Sums};
use ride::{Ride, TraceRefused};
use ride_text::Took;
use settings::Store;
pub use taking::Troubles;

// An acceptance run on its way: the state of the ride, the run over the plan, and what went wrong
// so far.
#[derive(Clone, Copy)]
pub struct Going {
    pub ride: Ride,
    pub run: Acceptance,
    pub troubles: Troubles,
}

// What taking a block answers: where the run stands after it, and how far it was taken, or why not.
#[derive(Clone, Copy)]
pub struct Advanced {
    pub going: Going,
    pub progress: Result<Took, TraceRefused>,
}

// Why a ride has not ended: there is no room for its lines.
#[derive(Clone, Copy, PartialEq, Eq)]
pub enum NotEnded {
    NoRoom,
}

// What ending the ride answers: where the run stands then, and how many bytes were written.
#[derive(Clone, Copy)]
pub struct Finished {
    pub going: Going,
    pub ending: Result<usize, NotEnded>,
}

// The records of a block taken in turn, as many as surely have room for their lines in out, each
// treated with the gap in force at its own odometer: the line of each present group at the start of
// out, the state of the ride, the run and what went wrong then; or the settings' own refusal, then
// 16, with nothing taken.
pub fn accept(going: Going, store: Store, trace: &[u8], out: &mut [u8]) -> Advanced
    ensures { says_advanced result out.new ≡ accept going store trace.now out.old }
{
    let asked = settings::at(store, 0);
    match asked {
        Err(bad) => Advanced {
            going,
            progress: Err(TraceRefused::Settings(bad)),
        },
        Ok(held) => {
            if trace.len() % 8 != 0 {
                return Advanced {
                    going,
                    progress: Err(TraceRefused::Length),
                };
            }
            records::over(going, store, held, trace, out)
        }
    }
}

// The end of the ride: its lines are taken as those of a record are; where they may have no room
// nothing is done.
pub fn finish(going: Going, out: &mut [u8]) -> Finished
    ensures { says_finished result out.new ≡ finish going out.old }
{
    if out.len() < 128 {
        return Finished {
            going,
            ending: Err(NotEnded::NoRoom),
        };
    }
    let before = going.ride;
    let run = going.run;
    let troubles = going.troubles;
    let ended = ride::end(before);
    let lines = ended.lines;
    let took = taking::take_lines(run, troubles, lines, out, 0);
    let ride = ended.ride;
    let then = took.run;
    let wrong = took.troubles;
    Finished {
        going: Going {
            ride,
            run: then,
            troubles: wrong,
        },
        ending: Ok(took.next),
    }
}

// The line of the entry with this index, the first has 0, to the letter, into buf from `at` on, all
// other bytes as they were, and the place after it; without room nothing is written, and the answer
// is `at`.
pub fn put_entry(i: usize, entry: Entry, buf: &mut [u8], at: usize) -> usize
    ensures { came result buf.new ≡ put (entry_line i entry) buf.old at }
{
    let mut space = [0u8; 128];
    let n = lines::spell_entry(i, entry, &mut space, 0);
    text::put(&space[..n], buf, at)
}

// The line of the sum, likewise.
pub fn put_sum(sums: Sums, buf: &mut [u8], at: usize) -> usize
    ensures { came result buf.new ≡ put (sum_line sums) buf.old at }
{
    let mut space = [0u8; 256];
    let n = lines::spell_sum(sums, &mut space, 0);
    text::put(&space[..n], buf, at)
}

// Whether a ride with these sums passed.
pub fn is_passed(sums: Sums) -> bool
    ensures { result ≡ is_passed sums }
{
    (sums.absent == 0) & (sums.extra == 0)
}

// What went wrong on the way, if anything did, and whether the ride passed, likewise.
pub fn put_last(sums: Sums, faults: u64, records: u64, buf: &mut [u8], at: usize) -> usize
    ensures { came result buf.new ≡ put (last_lines sums faults records) buf.old at }
{
    let mut space = [0u8; 128];
    let n = lines::spell_last(is_passed(sums), faults, records, &mut space, 0);
    text::put(&space[..n], buf, at)
}

// The line of a refused plan, likewise.
pub fn put_refused(number: u8, buf: &mut [u8], at: usize) -> usize
    ensures { came result buf.new ≡ put (refused_line number) buf.old at }
{
    let mut space = [0u8; 128];
    let n = lines::spell_refused(number, &mut space, 0);
    text::put(&space[..n], buf, at)
}
