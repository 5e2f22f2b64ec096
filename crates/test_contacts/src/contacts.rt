// The detector, alone and with the judging of what it hands out.
use crate::say;
use contact::{begin, judge, next_contact};

// The contacts of a record's first bits, up to the first answer that is none.
fn ask(rt: &impl Print, record: &[u8], bits: usize) {
    let Ok(search) = begin(record, 0, bits) else {
        say::words(rt, b"refused 5\n");
        return;
    };
    let first = next_contact(search, record);
    say::next(rt, first);
    let Ok(Some(contact)) = first else {
        return;
    };
    say::words(rt, b"  and then: ");
    say::next(rt, next_contact(contact.then, record));
}

// 7 and 8 zeroes in sixteen, and a record that ends in a contact.
pub fn records(rt: &impl Print) {
    say::words(rt, b"seven zeroes, FF 80 FF FF: ");
    ask(rt, &[0xff, 0x80, 0xff, 0xff], 32);
    say::words(rt, b"eight zeroes, FF 00 FF FF: ");
    ask(rt, &[0xff, 0x00, 0xff, 0xff], 32);
    say::words(rt, b"the same, ended by the closing bit: ");
    ask(rt, &[0xff, 0x00, 0xff, 0xff], 28);
    say::words(rt, b"the same, ended before the closing bit: ");
    ask(rt, &[0xff, 0x00, 0xff, 0xff], 27);
}

// The first contact of a record, judged.
fn ask_and_judge(rt: &impl Print, record: &[u8], bits: usize) {
    let Ok(search) = begin(record, 0, bits) else {
        say::words(rt, b"refused 5\n");
        return;
    };
    let first = next_contact(search, record);
    say::next(rt, first);
    let Ok(Some(contact)) = first else {
        return;
    };
    say::words(rt, b"  judged: ");
    say::judged(rt, judge(record, contact.start, contact.length, 0x72, 0x0d));
}

// A line of ones with a balise on it: its telegram three times, and once another telegram last.
pub fn whole_lines(rt: &impl Print) {
    say::words(rt, b"one telegram three times on a line: ");
    ask_and_judge(
        rt,
        b"\xff\xff\x72\x17\x8e\x5a\x0d\x17\x8e\x5a\x72\x17\x8e\x5a\x0d\xff\xff\xff\xff",
        152,
    );
    say::words(rt, b"two telegrams differ in one contact: ");
    ask_and_judge(
        rt,
        b"\xff\xff\x72\x17\x8e\x5a\x0d\x17\x8e\x5a\x72\x99\x2b\x4d\x0d\xff\xff\xff\xff",
        152,
    );
}
