// Settings that change on the way (document 02, M-111): up to 32 versions of gap, S and S*, each in
// force from a place of the odometer until the next one's.
// Promises: a store that begin and add made is never empty and in order; any place up to
// 4,000,000,000 has one version in force; a lent store that they did not make is refused with 25,
// 19 or 24 for the store as a whole, then as adding version by version would.
// Specification: specs/Versions.antt, Store.antt, At.antt, Says.antt (the answers); laws:
// specs/Laws.antt. A store's own refusal is that of a lent store which begin and add did not make:
// 25 for a count above 32, 19 for a count of 0, 24 for a first place that is not 0, else the number
// that its first bad version would have been given.
#![tactic(auto)]

ghost use Rattle.std.specs.Prelude.{◌≡◌};
ghost use Rattle.settings.specs.Store.{begin, add};
ghost use Rattle.settings.specs.At.{asked};
ghost use Rattle.settings.specs.Says.{says_begun, says_added, says_asked};

mod judging;
mod places;
mod versions;

pub use places::leaves;
pub use versions::allowed;

// A version of the settings: the gap and the sync words S and S* (s and t), in force from a place
// on.
#[derive(Clone, Copy)]
pub struct Version {
    pub place: u32,
    pub gap: u32,
    pub s: u8,
    pub t: u8,
}

// A store: its versions are the first `count`, in rising order of their places.
#[derive(Clone, Copy)]
pub struct Store {
    pub versions: [Version; 32],
    pub count: usize,
}

// Why a version, a store or a place is refused: 4, 19, 18, 24 and 25 in this order.
#[derive(Clone, Copy, PartialEq, Eq)]
pub enum Bad {
    Pair,
    Gap,
    TooHigh,
    NotAbove,
    Full,
}

// What opening a store answers: the store, and how it went. Refused, its store has count 0.
#[derive(Clone, Copy)]
pub struct Begun {
    pub store: Store,
    pub verdict: Result<(), Bad>,
}

// What adding a version answers: the store after it, and how it went. Refused, it is the store as
// it was.
#[derive(Clone, Copy)]
pub struct Added {
    pub store: Store,
    pub verdict: Result<(), Bad>,
}

// The settings in force at a place, with the places from which and until which they are: `until` is
// the first place at which they are not. The last version is in force to the end; its `until` is
// 4,000,000,001.
#[derive(Clone, Copy)]
pub struct Held {
    pub gap: u32,
    pub s: u8,
    pub t: u8,
    pub from: u32,
    pub until: u32,
}

// A store with its first version, at place 0; or 4, then 19, and a store with count 0.
pub fn begin(gap: u32, s: u8, t: u8) -> Begun
    ensures { says_begun result ≡ begin gap s t }
{
    let verdict = versions::settings_of(gap, s, t);
    match verdict {
        Ok(()) => Begun {
            store: places::opened(Version {
                place: 0,
                gap,
                s,
                t,
            }),
            verdict: Ok(()),
        },
        Err(bad) => Begun {
            store: places::no_store(),
            verdict: Err(bad),
        },
    }
}

// The store with one version more, in force from this place on; or the store's own refusal, then 4,
// 19, 18, 24, 25 in this order, and the store as it was.
pub fn add(store: Store, place: u32, gap: u32, s: u8, t: u8) -> Added
    ensures { says_added result ≡ add store (record { place = place; gap = gap; s = s; t = t }) }
{
    let version = Version { place, gap, s, t };
    let verdict = judging::may_add(store, version);
    match verdict {
        Ok(()) => Added {
            store: places::with_one(store, version),
            verdict: Ok(()),
        },
        Err(bad) => Added {
            store,
            verdict: Err(bad),
        },
    }
}

// The settings in force at a place, with the places from which and until which they are; or the
// store's own refusal, then 18.
pub fn at(store: Store, place: u32) -> Result<Held, Bad>
    ensures { says_asked result ≡ asked store place }
{
    judging::judge(store)?;
    if place > 4000000000 {
        return Err(Bad::TooHigh);
    }
    Ok(places::in_force(store, place))
}
