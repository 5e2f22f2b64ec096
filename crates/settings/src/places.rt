// The places of a store: what stands there, and which version is in force at a place of the
// odometer.
ghost use Rattle.std.specs.Prelude.{◌≡◌, ◌≤◌, ◌<◌};
ghost use Rattle.settings.specs.Store.{no_store_meant, opened, last_place, with_one};
ghost use Rattle.settings.specs.At.{holds, held_at, leaves};

use crate::{Held, Store, Version};

// A place of a store that no version has taken.
const NO_VERSION: Version = Version {
    place: 0,
    gap: 0,
    s: 0,
    t: 0,
};

// No store.
pub fn no_store() -> Store
    ensures { result ≡ no_store_meant }
{
    Store {
        versions: [NO_VERSION; 32],
        count: 0,
    }
}

// A store with its first version.
pub fn opened(version: Version) -> Store
    ensures { result ≡ opened version }
{
    let mut versions = [NO_VERSION; 32];
    versions[0] = version;
    Store { versions, count: 1 }
}

// The place of the last version.
pub fn last_place(store: Store) -> u32
    requires { (1 ≤ store.count) × (store.count ≤ 32) }
    ensures { result ≡ last_place store }
{
    let versions = store.versions;
    let last = versions[store.count - 1];
    last.place
}

// The store with one version more.
pub fn with_one(store: Store, version: Version) -> Store
    requires { store.count < 32 }
    ensures { result ≡ with_one store version }
{
    let count = store.count;
    let mut versions = store.versions;
    versions[count] = version;
    Store {
        versions,
        count: count + 1,
    }
}

// A version with the places from which and until which it is in force.
fn holds(version: Version, until: u32) -> Held
    ensures { result ≡ holds version until }
{
    Held {
        gap: version.gap,
        s: version.s,
        t: version.t,
        from: version.place,
        until,
    }
}

// The version in force at a place: from the first on, the next one takes its place as long as its
// own is not above.
pub fn in_force(store: Store, place: u32) -> Held
    requires { (1 ≤ store.count) × (store.count ≤ 32) }
    ensures { result ≡ held_at store place }
{
    let versions = store.versions;
    let count = store.count;
    let mut now = versions[0];
    for i in 1..count {
        let next = versions[i];
        if place < next.place {
            return holds(now, next.place);
        }
        now = next;
    }
    holds(now, 4000000001)
}

// Whether a place lies outside those at which the held settings are in force, so that the store is
// to be asked again.
pub fn leaves(held: Held, place: u32) -> bool
    ensures { result ≡ leaves held place }
{
    (place < held.from) | (held.until <= place)
}
