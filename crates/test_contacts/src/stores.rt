// A contact under a store of settings (document 02, M-111): judged with the sync pair in force at
// the odometer given with it.
use crate::say;
use contact::judge_under;
use settings::Store;

// A store of two versions: the pair 72 0D, and from place 1000 on the pair 00 7F.
fn two_versions() -> Store {
    let begun = settings::begin(40, 0x72, 0x0d);
    let added = settings::add(begun.store, 1000, 40, 0x00, 0x7f);
    added.store
}

// One telegram twice between the words of each pair, at this odometer.
fn ask(rt: &impl Print, store: Store, odometer: u32) {
    say::words(rt, b"at ");
    say::number(rt, odometer as u64);
    say::words(rt, b", between 72 and 0D: ");
    say::judged_under(
        rt,
        judge_under(
            store,
            odometer,
            b"\x72\x17\x8e\x5a\x0d\x17\x8e\x5a\x72",
            0,
            72,
        ),
    );
    say::words(rt, b"  between 00 and 7F: ");
    say::judged_under(
        rt,
        judge_under(
            store,
            odometer,
            b"\x00\x17\x8e\x5a\x7f\x17\x8e\x5a\x00",
            0,
            72,
        ),
    );
}

// Before, at and after the second version's place, and around the highest place.
pub fn odometers(rt: &impl Print) {
    let store = two_versions();
    ask(rt, store, 0);
    ask(rt, store, 999);
    ask(rt, store, 1000);
    ask(rt, store, 1001);
    ask(rt, store, 4000000000);
    ask(rt, store, 4000000001);
}

// Stores that no call made: the store's own number first, whatever the odometer.
pub fn refused_stores(rt: &impl Print) {
    let two = two_versions();
    let versions = two.versions;
    say::words(rt, b"a store of no version ");
    ask(rt, Store { versions, count: 0 }, 4000000001);
    say::words(rt, b"a store whose third version has no pair ");
    ask(rt, Store { versions, count: 3 }, 0);
    say::words(rt, b"a store of 33 versions ");
    ask(
        rt,
        Store {
            versions,
            count: 33,
        },
        0,
    );
}
