// Settings: a store opened, added to, and read from a text.
ghost use Rattle.std.specs.Prelude.{◌≡◌, pos};
ghost use Rattle.settings.specs.Store.{begin, add};
ghost use Rattle.state_bytes.specs.Stores.{store_in};
ghost use Rattle.settings_text.specs.Sheet.{sheet};
ghost use Rattle.abi.specs.Face.{returned};
ghost use Rattle.abi.specs.Stores.{kept_number, store_left, store_after_meant, change_of};

use crate::refusal::{below_zero, of_settings};
use settings_text::Condition;

// 0, with a store of one version, at place 0, in `store`; -4 or -19.
pub fn atc2_settings_begin(gap: u32, s: u8, t: u8, store: &mut [u8; 1032]) -> i32
    ensures value { result ≡ returned kept_number (begin gap s t).answer }
    ensures store_after { store.new ≡ store_left (begin gap s t) store.old }
    ensures store_after_2 { store_in store.new ≡ store_after_meant (begin gap s t) (store_in store.old) }
{
    let begun = settings::begin(gap, s, t);
    let made = begun.store;
    let verdict = begun.verdict;
    match verdict {
        Ok(()) => {
            let bytes = state_bytes::store_bytes(made);
            *store = bytes;
            0
        }
        Err(bad) => of_settings(bad),
    }
}

// 0, with one version more in `store`; the store's own refusal, -4, -19, -18, -24 or -25.
pub fn atc2_settings_add(store: &mut [u8; 1032], place: u32, gap: u32, s: u8, t: u8) -> i32
    ensures value { result ≡ returned kept_number (add (store_in store.old) (record { place = place; gap = gap; s = s; t = t })).answer }
    ensures store_after { store.new ≡ store_left (add (store_in store.old) (record { place = place; gap = gap; s = s; t = t })) store.old }
    ensures store_after_2 { store_in store.new ≡ store_after_meant (add (store_in store.old) (record { place = place; gap = gap; s = s; t = t })) (store_in store.old) }
{
    let lent = *store;
    let held = state_bytes::store_in(&lent);
    let added = settings::add(held, place, gap, s, t);
    let made = added.store;
    let verdict = added.verdict;
    match verdict {
        Ok(()) => {
            let bytes = state_bytes::store_bytes(made);
            *store = bytes;
            0
        }
        Err(bad) => of_settings(bad),
    }
}

// 0, with the store of a text's settings in `store`; the refusal of its first bad line, -100 if it
// is unreadable, -102 if it is the first and its place is not 0, -101 for a text that is too long.
pub fn atc2_settings_read(text: &[u8], store: &mut [u8; 1032]) -> i32
    ensures value { result ≡ returned kept_number (change_of (sheet text.now)).answer }
    ensures store_after { store.new ≡ store_left (change_of (sheet text.now)) store.old }
    ensures store_after_2 { store_in store.new ≡ store_after_meant (change_of (sheet text.now)) (store_in store.old) }
{
    let read = settings_text::read(text);
    let made = read.store;
    let how = read.how;
    match how {
        Condition::Fine => {
            let bytes = state_bytes::store_bytes(made);
            *store = bytes;
            0
        }
        Condition::Refused(number) => below_zero(number),
        Condition::Unreadable => -100,
        Condition::TooLong => -101,
        Condition::FirstPlace => -102,
    }
}

// The number of the first bad line of a text, counted from 1; 0 where none is to be named.
pub fn atc2_settings_line(text: &[u8]) -> i64
    ensures { result ≡ pos (sheet text.now).line }
{
    let read = settings_text::read(text);
    read.line as i64
}
