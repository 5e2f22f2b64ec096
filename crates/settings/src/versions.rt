// One version: whether its settings are good, and whether it may follow another.
ghost use Rattle.std.specs.Prelude.{◌≡◌};
ghost use Rattle.settings.specs.Versions.{allowed, settings_of, follows};
ghost use Rattle.settings.specs.Says.{says_verdict};

use crate::{Bad, Version};
use telegram::NotSeven;

// Whether a gap is allowed: exactly from 1 to 200.
pub fn allowed(gap: u32) -> bool
    ensures { result ≡ allowed gap }
{
    (1 <= gap) & (gap <= 200)
}

// Whether settings are good: 4 for the sync pair, then 19 for the gap.
pub fn settings_of(gap: u32, s: u8, t: u8) -> Result<(), Bad>
    ensures { says_verdict result ≡ settings_of gap s t }
{
    match telegram::good_pair(s, t) {
        Err(NotSeven) => Err(Bad::Pair),
        Ok(()) => {
            if allowed(gap) {
                return Ok(());
            }
            Err(Bad::Gap)
        }
    }
}

// Whether a version may follow one that is in force from `last` on: 4 and 19 for its settings, 18
// for its place, 24 where that is not above.
pub fn follows(last: u32, version: Version) -> Result<(), Bad>
    ensures { says_verdict result ≡ follows last version }
{
    settings_of(version.gap, version.s, version.t)?;
    if version.place > 4000000000 {
        return Err(Bad::TooHigh);
    }
    if version.place <= last {
        return Err(Bad::NotAbove);
    }
    Ok(())
}
