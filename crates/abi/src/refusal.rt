// Refusals as C's numbers.
ghost use Rattle.std.specs.Prelude.{◌≡◌, ◌<◌, pos, neg_ℤ};
ghost use Rattle.settings.specs.Says.{says_bad};

use settings::Bad;

// Refusal n is -n.
pub fn below_zero(number: u8) -> i32
    ensures { (result ≡ neg_ℤ (pos number)) × (number < 256) }
{
    0 - number as i32
}

// What is returned of a refusal of the settings.
pub fn of_settings(bad: Bad) -> i32
    ensures { (result ≡ neg_ℤ (pos (says_bad bad))) × (says_bad bad < 256) }
{
    match bad {
        Bad::Pair => -4,
        Bad::Gap => -19,
        Bad::TooHigh => -18,
        Bad::NotAbove => -24,
        Bad::Full => -25,
    }
}
