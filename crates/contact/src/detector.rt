// The walk over the bits of a stretch: outside a contact to the bit that opens one, inside it to
// the bit that closes it. Up to 48 bits are passed over at once where none of them can; the bit
// after those is judged by the zeroes among the latest sixteen.
ghost use Rattle.std.specs.Prelude.{◌≡◌, ℕ, ◌+◌, ◌-◌, ◌*◌, ◌/◌, ◌%◌, ◌<◌, ◌≤◌, ◌^◌};
ghost use Rattle.words.specs.Bits.{bit};
ghost use Rattle.telegram.specs.Stretch.{bits_at};
ghost use Rattle.contact.specs.History.{zeroes};
ghost use Rattle.contact.specs.Contacts.{outside, since, contacts, first};
ghost use Rattle.contact.specs.Says.{says_next};

use crate::count::{closing, opening};
use crate::{HandedOut, NextRefused, Search};

// 2 ^ 48: what is left of a division by it are the lowest 48 bits.
const TWO_TO_THE_48: u64 = 281474976710656;

// Outside a contact, from bit `from` to bit `end`: the first one that opens, or none.
pub fn outside(
    buf: &[u8],
    from: usize,
    end: usize,
    history: u32,
) -> Result<Option<HandedOut>, NextRefused>
    requires { (from ≤ end) × (history < 65536) }
    ensures { says_next result ≡ first (contacts buf.now outside history from (end - from)) }
{
    let mut h = history;
    let mut i = from;
    // Stays as it is: a `for` is no plainer, since a turn passes over up to 48 bits.
    while i < end {
        let w = line(buf, i, h);
        let n = before_first(opening(w));
        if end - i <= n {
            return Ok(None);
        }
        if n < 48 {
            h = latest(w, n + 1);
            i += n;
            if 8 <= zeroes(h) {
                return within(buf, i, end, h);
            }
            i += 1;
        } else {
            h = latest(w, 48);
            i += 48;
        }
    }
    Ok(None)
}

// Inside a contact that the bit `opened` opens: on to the bit that closes it, which is not part of
// it.
fn within(
    buf: &[u8],
    opened: usize,
    end: usize,
    history: u32,
) -> Result<Option<HandedOut>, NextRefused>
    requires { (opened < end) × (history < 65536) }
    ensures { says_next result ≡ first (contacts buf.now (since opened) history (opened + 1) (end - (opened + 1))) }
{
    let mut h = history;
    let mut i = opened + 1;
    // Stays as it is: a `for` is no plainer, since a turn passes over up to 48 bits.
    while i < end {
        let w = line(buf, i, h);
        let n = before_first(closing(w));
        if end - i <= n {
            return Err(NextRefused::Cut);
        }
        if n < 48 {
            h = latest(w, n + 1);
            i += n;
            let behind = i + 1;
            if zeroes(h) <= 4 {
                return Ok(Some(HandedOut {
                    start: opened,
                    length: i - opened,
                    then: Search {
                        next: behind,
                        left: end - behind,
                        history: h as u16,
                    },
                }));
            }
            i = behind;
        } else {
            h = latest(w, 48);
            i += 48;
        }
    }
    Err(NextRefused::Cut)
}

// The latest sixteen bits, and after them the 48 of the buffer from bit i on.
fn line(buf: &[u8], i: usize, history: u32) -> u64
    requires { history < 65536 }
    ensures { result ≡ history * 2 ^ 48 + bits_at buf.now i 48 }
{
    history as u64 * TWO_TO_THE_48
        + (telegram::eight_bytes(buf, i / 8) >> (16 - i % 8)) % TWO_TO_THE_48
}

// The latest sixteen bits after n of those 48.
fn latest(w: u64, n: usize) -> u32
    requires { n ≤ 48 }
    ensures { result ≡ w / 2 ^ (48 - n) % 65536 }
{
    ((w >> (48 - n)) % 65536) as u32
}

// How many of those 48 come before the first that m marks; the first is marked by bit 47.
fn before_first(m: u64) -> usize
    ensures { (result ≤ 48) × ((j : ℕ) → j < result → bit m (47 - j) ≡ 0) }
{
    u64::leading_zeros(m % TWO_TO_THE_48) as usize - 16
}

// The zeroes among the latest sixteen bits.
fn zeroes(history: u32) -> u32
    requires { history < 65536 }
    ensures { result ≡ zeroes history }
{
    16 - u32::count_ones(history)
}
