// The judging of one contact.
use crate::say;
use contact::judge;

// 63 and 64 zero bits, and 11 and 12 ones after zeroes.
pub fn markers(rt: &impl Print) {
    let zeroes = [0x00; 8];
    say::words(rt, b"63 zeroes: ");
    say::judged(rt, judge(&zeroes, 0, 63, 0x72, 0x0d));
    say::words(rt, b"64 zeroes: ");
    say::judged(rt, judge(&zeroes, 0, 64, 0x72, 0x0d));
    say::words(rt, b"53 zeroes and 11 ones: ");
    say::judged(
        rt,
        judge(b"\x00\x00\x00\x00\x00\x00\x07\xff", 0, 64, 0x72, 0x0d),
    );
    say::words(rt, b"52 zeroes and 12 ones: ");
    say::judged(
        rt,
        judge(b"\x00\x00\x00\x00\x00\x00\x0f\xff", 0, 64, 0x72, 0x0d),
    );
    say::words(rt, b"57 zeroes and 7 ones, one place between 00 and 7F: ");
    say::judged(
        rt,
        judge(b"\x00\x00\x00\x00\x00\x00\x00\x7f", 0, 64, 0x00, 0x7f),
    );
}

// One place, two alike, two that differ.
pub fn places(rt: &impl Print) {
    say::words(rt, b"one place: ");
    say::judged(rt, judge(b"\x72\x17\x8e\x5a\x0d", 0, 40, 0x72, 0x0d));
    say::words(rt, b"two places alike, one sync word shared: ");
    say::judged(
        rt,
        judge(b"\x72\x17\x8e\x5a\x0d\x17\x8e\x5a\x72", 0, 72, 0x72, 0x0d),
    );
    say::words(rt, b"two places that differ: ");
    say::judged(
        rt,
        judge(b"\x72\x17\x8e\x5a\x0d\x99\x2b\x4d\x72", 0, 72, 0x72, 0x0d),
    );
    say::words(rt, b"a pair that differs in eight bits: ");
    say::judged(rt, judge(b"\x72\x17\x8e\x5a\x0d", 0, 40, 0x72, 0x8d));
    say::words(rt, b"41 bits of a buffer of 40: ");
    say::judged(rt, judge(b"\x72\x17\x8e\x5a\x0d", 0, 41, 0x72, 0x0d));
}
