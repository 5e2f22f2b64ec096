// A judgement with the pair in force, as an answer under a store.
ghost use Rattle.std.specs.Prelude.{◌≡◌};
ghost use Rattle.contact.specs.Says.{says_judged, says_judged_under};

use crate::{Judged, JudgedUnder};
use settings::Bad;

// The same answer; a bad pair is one of the settings.
pub fn with_pair(judged: Judged) -> JudgedUnder
    ensures { says_judged_under result ≡ says_judged judged }
{
    match judged {
        Judged::Read {
            telegram,
            first,
            count,
        } => JudgedUnder::Read {
            telegram,
            first,
            count,
        },
        Judged::Marker => JudgedUnder::Marker,
        Judged::NotSeven => JudgedUnder::Settings(Bad::Pair),
        Judged::Beyond => JudgedUnder::Beyond,
        Judged::Differ => JudgedUnder::Differ,
        Judged::Neither => JudgedUnder::Neither,
    }
}
