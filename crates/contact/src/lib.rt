// Contacts of document 01: the detector, which hands out those of a stretch one after the other,
// and the judging of one.
// Promises: each contact comes once, in order, and nothing else moves the search; judged are all of
// its places at once.
// Specification: specs/History.antt (the latest sixteen bits), specs/Contacts.antt,
// specs/Judge.antt, specs/Under.antt (under a store of settings), specs/Says.antt (the answers).
// Laws: calling next_contact on and on gives exactly the contacts of one definition over the whole
// stretch (proofs/Law.antt).
#![tactic(auto)]

ghost use Rattle.std.specs.Prelude.{◌≡◌};
ghost use Rattle.contact.specs.Contacts.{begin, next_contact};
ghost use Rattle.contact.specs.Judge.{judge};
ghost use Rattle.contact.specs.Under.{judge_under};
ghost use Rattle.contact.specs.Says.{says_search_begun, says_next, says_judged, says_judged_under};

mod count;
mod detector;
mod marker;
mod under;

use settings::{Bad, Store};
use telegram::{Beyond, NotAlike, Surveyed, Telegram};

// A search for contacts: the next bit, the bits left, and the latest sixteen bits, of which the
// newest is the lowest.
#[derive(Clone, Copy)]
pub struct Search {
    pub next: usize,
    pub left: usize,
    pub history: u16,
}

// A contact handed out: its first bit, its length, and the search after its closing bit.
#[derive(Clone, Copy)]
pub struct HandedOut {
    pub start: usize,
    pub length: usize,
    pub then: Search,
}

// Why no next contact is answered: it is cut by the end of the record, or the stretch lies beyond
// the buffer: 9 or 5.
#[derive(Clone, Copy, PartialEq, Eq)]
pub enum NextRefused {
    Cut,
    Beyond,
}

// What judging a contact answers: what was read, with the first place and the number of places; a
// marker; or why neither.
#[derive(Clone, Copy)]
pub enum Judged {
    Read {
        telegram: Telegram,
        first: usize,
        count: usize,
    },
    Marker,
    NotSeven,
    Beyond,
    Differ,
    Neither,
}

// What judging a contact under a store answers: what was read, with the first place and the number
// of places; a marker; why the settings or the place are refused; or why it is neither.
#[derive(Clone, Copy)]
pub enum JudgedUnder {
    Read {
        telegram: Telegram,
        first: usize,
        count: usize,
    },
    Marker,
    Settings(Bad),
    Beyond,
    Differ,
    Neither,
}

// The search over a stretch, with sixteen ones as history; or refusal 5.
pub fn begin(buf: &[u8], start: usize, len: usize) -> Result<Search, Beyond>
    ensures { says_search_begun result ≡ begin buf.now start len }
{
    match telegram::inside(buf, start, len) {
        Ok(()) => Ok(Search {
            next: start,
            left: len,
            history: 65535,
        }),
        Err(Beyond) => Err(Beyond),
    }
}

// The next contact, with the search past its closing bit; or that no further one opens; or refusal
// 9 if it is cut, 5 if the search's stretch is not taken. Only a contact moves the search.
pub fn next_contact(search: Search, buf: &[u8]) -> Result<Option<HandedOut>, NextRefused>
    ensures { says_next result ≡ next_contact buf.now search }
{
    let next = search.next;
    let left = search.left;
    let history = search.history;
    match telegram::inside(buf, next, left) {
        Ok(()) => detector::outside(buf, next, next + left, history as u32),
        Err(Beyond) => Err(NextRefused::Beyond),
    }
}

// The contact of `len` bits from bit `start` on, judged: after 4 and 5 (a) read, (b) refused with
// 7, (c) a marker, (d) refused with 8, in this order.
pub fn judge(buf: &[u8], start: usize, len: usize, s: u8, t: u8) -> Judged
    ensures { says_judged result ≡ judge buf.now start len s t }
{
    match telegram::survey(buf, start, len, s, t) {
        Ok(
            Surveyed {
                telegram,
                first,
                count,
            },
        ) => {
            if 2 <= count {
                return Judged::Read {
                    telegram,
                    first,
                    count,
                };
            }
            marker::or_neither(buf, start, len)
        }
        Err(NotAlike::Differ) => Judged::Differ,
        Err(NotAlike::NotSeven) => Judged::NotSeven,
        Err(NotAlike::Beyond) => Judged::Beyond,
        Err(NotAlike::NoPlace) => marker::or_neither(buf, start, len),
    }
}

// The contact judged with the sync pair in force at the odometer given with it: the store's own
// refusal, then 18, then as `judge` has it.
pub fn judge_under(store: Store, odometer: u32, buf: &[u8], start: usize, len: usize) -> JudgedUnder
    ensures { says_judged_under result ≡ judge_under store odometer buf.now start len }
{
    let asked = settings::at(store, odometer);
    match asked {
        Err(bad) => JudgedUnder::Settings(bad),
        Ok(held) => under::with_pair(judge(buf, start, len, held.s, held.t)),
    }
}
