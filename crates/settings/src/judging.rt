// Judging a lent store: 25, 19, 24 for the store as a whole, then as adding version by version
// would; and whether it takes one version more.
ghost use Rattle.std.specs.Prelude.{◌≡◌, ◌≤◌, take, drop};
ghost use Rattle.settings.specs.Store.{all_follow, judged, may_add};
ghost use Rattle.settings.specs.Says.{says_verdict};

use crate::places::last_place;
use crate::versions::{follows, settings_of};
use crate::{Bad, Store, Version};

// Whether each version after the first, which is in force from 0 on, may follow the one before.
fn all_follow(versions: [Version; 32], count: usize) -> Result<(), Bad>
    requires { (1 ≤ count) × (count ≤ 32) }
    ensures { says_verdict result ≡ all_follow 0 (drop 1 (take count versions)) }
{
    let mut last: u32 = 0;
    for i in 1..count {
        let version = versions[i];
        follows(last, version)?;
        last = version.place;
    }
    Ok(())
}

// The judgement of a store: 25 for its count, 19 where it is empty, 24 for its first place, then
// its versions one by one.
pub fn judge(store: Store) -> Result<(), Bad>
    ensures { says_verdict result ≡ judged store }
{
    let count = store.count;
    if count > 32 {
        return Err(Bad::Full);
    }
    if count == 0 {
        return Err(Bad::Gap);
    }
    let versions = store.versions;
    let first = versions[0];
    if first.place != 0 {
        return Err(Bad::NotAbove);
    }
    settings_of(first.gap, first.s, first.t)?;
    all_follow(versions, count)
}

// Whether a version is added: the store's own refusal, the version's, and 25 for a 33rd.
pub fn may_add(store: Store, version: Version) -> Result<(), Bad>
    ensures { says_verdict result ≡ may_add store version }
{
    judge(store)?;
    follows(last_place(store), version)?;
    if store.count < 32 {
        return Ok(());
    }
    Err(Bad::Full)
}
