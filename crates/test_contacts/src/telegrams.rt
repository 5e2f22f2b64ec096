// Sync pairs, and the search for single telegrams.
ghost use Rattle.std.specs.Prelude.{◌≤◌};

use crate::say;
use telegram::{find, good_pair};

// Two telegrams that share a sync word, between the pair 72 and 0D hex of source 001.
const SHARED: [u8; 9] = [0x72, 0x17, 0x8e, 0x5a, 0x0d, 0x99, 0x2b, 0x4d, 0x72];

// Pairs that differ in six, seven and eight bits, and the pair of source 001, figure 5.4-1.
pub fn pairs(rt: &impl Print) {
    say::words(rt, b"pair 00 3F, six bits differ: ");
    say::pair(rt, good_pair(0x00, 0x3f));
    say::words(rt, b"pair 00 7F, seven bits differ: ");
    say::pair(rt, good_pair(0x00, 0x7f));
    say::words(rt, b"pair 00 FF, eight bits differ: ");
    say::pair(rt, good_pair(0x00, 0xff));
    say::words(rt, b"pair 72 0D, source 001: ");
    say::pair(rt, good_pair(0x72, 0x0d));
}

// 39 and 40 bits, one bit beyond the buffer, the same sync word at both ends, and a number.
pub fn stretches(rt: &impl Print) {
    let shared = SHARED;
    say::words(rt, b"39 bits from bit 0: ");
    say::found(rt, find(&shared, 0, 39, 0x72, 0x0d));
    say::words(rt, b"40 bits from bit 0: ");
    say::found(rt, find(&shared, 0, 40, 0x72, 0x0d));
    say::words(
        rt,
        b"40 bits from bit 0, sync words named the other way round: ",
    );
    say::found(rt, find(&shared, 0, 40, 0x0d, 0x72));
    say::words(rt, b"40 bits from bit 33, one beyond the buffer: ");
    say::found(rt, find(&shared, 33, 40, 0x72, 0x0d));
    say::words(rt, b"the same with a bad pair: ");
    say::found(rt, find(&shared, 33, 40, 0x72, 0x72));
    let same = [0x72, 0x17, 0x8e, 0x5a, 0x72];
    say::words(rt, b"72 at both ends: ");
    say::found(rt, find(&same, 0, 40, 0x72, 0x0d));
    let balise = [0x72, 0xc3, 0x88, 0x06, 0x0d];
    say::words(rt, b"X reads 12, then 88 06: ");
    say::found(rt, find(&balise, 0, 40, 0x72, 0x0d));
}

// The first place from bit `start` on; what comes back is the bit after it, where it is asked
// again.
fn ask(rt: &impl Print, start: usize) -> usize
    requires { start ≤ 72 }
    ensures { result ≤ 72 }
{
    let shared = SHARED;
    say::words(rt, b"two telegrams share a sync word, from bit ");
    say::number(rt, start as u64);
    say::words(rt, b": ");
    let answer = find(&shared, start, 72 - start, 0x72, 0x0d);
    say::found(rt, answer);
    let Ok(found) = answer else {
        return 72;
    };
    if found.place < 72 {
        found.place + 1
    } else {
        72
    }
}

// Two telegrams that share a sync word: asked again from the bit after each place, until 6.
pub fn in_turn(rt: &impl Print) {
    let second = ask(rt, 0);
    let third = ask(rt, second);
    ask(rt, third);
}
