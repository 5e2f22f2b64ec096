// A telegram as one number.
ghost use Rattle.std.specs.Prelude.{◌≡◌, ◌<◌, ◌^◌};
ghost use Rattle.abi.specs.Face.{as_one};

use telegram::Telegram;

// X * 65536 + Y * 256 + Z, or 12 * 65536 + the number.
pub fn as_one(telegram: Telegram) -> u32
    ensures { (result ≡ as_one telegram) × (result < 2 ^ 24) }
{
    match telegram {
        Telegram::Figures(x, y, z) => x as u32 * 65536 + y as u32 * 256 + z as u32,
        Telegram::Number(m) => 12 * 65536 + m as u32,
    }
}
