// The next line of a ride that has a word.
ghost use Rattle.std.specs.Prelude.{◌≡◌, ◌+◌, ◌*◌, drop};
ghost use Rattle.words.specs.Answer.{gives};
ghost use Rattle.settings.specs.Versions.{kept};
ghost use Rattle.settings.specs.Store.{judged};
ghost use Rattle.settings.specs.At.{gap_at};
ghost use Rattle.ride.specs.Over.{records};
ghost use Rattle.ride_text.specs.Says.{says_done};
ghost use Rattle.viewer_text.specs.Seeking.{bytes_of, seek_in, seek};

use crate::finding::has;
use ride::{Ride, TraceRefused};
use ride_text::{REASONS, Took};
use settings::Store;

// How many bytes a listing wrote.
fn bytes_of(done: Result<Took, TraceRefused>) -> usize
    ensures { result ≡ bytes_of (says_done done) }
{
    match done {
        Ok(took) => took.bytes,
        Err(_) => 0,
    }
}

// The records that are left, one after the other, up to the first that gives a line with the word:
// how many records forward lead to just after it; none where no record gives one.
fn over(trace: &[u8], number: usize, ride: Ride, store: Store, word: &[u8]) -> Option<usize>
    requires { judged store ≡ gives kept }
    ensures { result ≡ seek_in word.now (gap_at store) ride (number + 1) (records (drop (number * 8) trace.now)) }
{
    let mut text = [0u8; 320];
    let mut now = ride;
    for i in number..trace.len() / 8 {
        let at = i * 8;
        let listed = ride_text::list(
            REASONS,
            now,
            store,
            i as u64 + 1,
            &trace[at..at + 8],
            &mut text,
        );
        let done = listed.done;
        let bytes = bytes_of(done);
        if has(&text[..bytes], word) {
            return Some(i - number + 1);
        }
        now = listed.ride;
    }
    None
}

// How many records forward lead to just after the first one that gives a line with the word, as
// `explain` writes it, where so many records lie before the viewer and the ride is in this state.
// With settings that are refused, or where no record gives one, there is none.
pub fn seek(trace: &[u8], number: usize, ride: Ride, store: Store, word: &[u8]) -> Option<usize>
    ensures { result ≡ seek word.now store ride number trace.now }
{
    let asked = settings::at(store, 0);
    match asked {
        Err(_) => None,
        Ok(_) => over(trace, number, ride, store, word),
    }
}
