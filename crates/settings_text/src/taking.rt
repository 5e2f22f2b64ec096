// A version given to the store.
ghost use Rattle.std.specs.Prelude.{◌≡◌};
ghost use Rattle.settings.specs.Store.{no_store_meant};
ghost use Rattle.settings.specs.Says.{says_bad, says_verdict};
ghost use Rattle.settings_text.specs.Taking.{after_it, given};
ghost use Rattle.settings_text.specs.Sheet.{ended};

use crate::{Condition, Sheet, Taken, bad};
use settings::{Bad, Store, Version};

// A place of a store that no version has taken.
const NO_VERSION: Version = Version {
    place: 0,
    gap: 0,
    s: 0,
    t: 0,
};

// A store that is not opened yet.
pub fn no_store() -> Store
    ensures { result ≡ no_store_meant }
{
    Store {
        versions: [NO_VERSION; 32],
        count: 0,
    }
}

// The number of a refusal.
fn number_of(bad: Bad) -> u8
    ensures { result ≡ says_bad bad }
{
    match bad {
        Bad::Pair => 4,
        Bad::Gap => 19,
        Bad::TooHigh => 18,
        Bad::NotAbove => 24,
        Bad::Full => 25,
    }
}

// What a version leaves: the store after it, or the one before it with the refusal's number.
fn after_it(verdict: Result<(), Bad>, old: Store, new: Store) -> Taken
    ensures { result ≡ after_it (says_verdict verdict) old new }
{
    match verdict {
        Ok(()) => Taken {
            store: new,
            how: Condition::Fine,
        },
        Err(bad) => Taken {
            store: old,
            how: Condition::Refused(number_of(bad)),
        },
    }
}

// A version given to the store: the first opens it, at place 0; any other is added.
pub fn give(store: Store, place: u32, gap: u32, s: u8, t: u8) -> Taken
    ensures { result ≡ given store (record { place = place; gap = gap; s = s; t = t }) }
{
    if store.count > 0 {
        let added = settings::add(store, place, gap, s, t);
        let verdict = added.verdict;
        let after = added.store;
        return after_it(verdict, store, after);
    }
    if place > 0 {
        return Taken {
            store,
            how: Condition::FirstPlace,
        };
    }
    let begun = settings::begin(gap, s, t);
    let verdict = begun.verdict;
    let after = begun.store;
    after_it(verdict, store, after)
}

// What a text comes to after its last line.
pub fn ended(store: Store) -> Sheet
    ensures { result ≡ ended store }
{
    if store.count == 0 {
        return bad(0, Condition::Refused(19));
    }
    Sheet {
        store,
        line: 0,
        how: Condition::Fine,
    }
}
