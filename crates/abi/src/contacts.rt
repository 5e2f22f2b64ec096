// Contacts: a search begun, the next contact of a search, and the judgement of one contact.
ghost use Rattle.std.specs.Prelude.{◌≡◌};
ghost use Rattle.contact.specs.Contacts.{begin, next_contact};
ghost use Rattle.contact.specs.Judge.{judge};
ghost use Rattle.abi.specs.Face.{returned, left};
ghost use Rattle.abi.specs.Contacts.{search_in, begun_number, begun_put, next_number, next_put, next_moved, judged_number, judged_put};

use crate::number::as_one;
use contact::{Judged, NextRefused, Search};

// 0, with the beginning of a search over the stretch in `search`; -5.
pub fn atc2_begin(buf: &[u8], start: usize, len: usize, search: &mut [u64; 3]) -> i32
    ensures value { result ≡ returned begun_number (begin buf.now start len) }
    ensures search_after { search.new ≡ left begun_put (begin buf.now start len) search.old }
{
    match contact::begin(buf, start, len) {
        Ok(begun) => {
            *search = [begun.next as u64, begun.left as u64, begun.history as u64];
            0
        }
        Err(_) => -5,
    }
}

// 1, with the next contact in `out` and what follows it in `search`; 0 if no further one opens; -5
// or -9.
pub fn atc2_next_contact(buf: &[u8], search: &mut [u64; 3], out: &mut [u64; 2]) -> i32
    ensures value { result ≡ returned next_number (next_contact buf.now (search_in search.old)) }
    ensures search_after { search.new ≡ left next_moved (next_contact buf.now (search_in search.old)) search.old }
    ensures out_after { out.new ≡ left next_put (next_contact buf.now (search_in search.old)) out.old }
{
    let lent = *search;
    let from = Search {
        next: lent[0] as usize,
        left: lent[1] as usize,
        history: (lent[2] % 65536) as u16,
    };
    match contact::next_contact(from, buf) {
        Ok(Some(contact)) => {
            let then = contact.then;
            *search = [then.next as u64, then.left as u64, then.history as u64];
            *out = [contact.start as u64, contact.length as u64];
            1
        }
        Ok(None) => 0,
        Err(NextRefused::Cut) => -9,
        Err(NextRefused::Beyond) => -5,
    }
}

// 1, with the telegram, its first place and the number of its places in `out`; 2 for a marker; -4,
// -5, -7 or -8.
pub fn atc2_judge(buf: &[u8], start: usize, len: usize, s: u8, t: u8, out: &mut [u64; 3]) -> i32
    ensures value { result ≡ returned judged_number (judge buf.now start len s t) }
    ensures out_after { out.new ≡ left judged_put (judge buf.now start len s t) out.old }
{
    match contact::judge(buf, start, len, s, t) {
        Judged::Read {
            telegram,
            first,
            count,
        } => {
            *out = [as_one(telegram) as u64, first as u64, count as u64];
            1
        }
        Judged::Marker => 2,
        Judged::NotSeven => -4,
        Judged::Beyond => -5,
        Judged::Differ => -7,
        Judged::Neither => -8,
    }
}
