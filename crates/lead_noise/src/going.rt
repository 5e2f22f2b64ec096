// A piece of a lead, byte after byte.
ghost use Rattle.std.specs.Prelude.{◌≡◌};
ghost use Rattle.lead_noise.specs.Noise.{with_noise};

use crate::byte;

// The bytes of line of its whole frames.
pub fn over(x: u32, chance: u32, lead: &mut [u8]) -> u32
    ensures { record { lead = lead.exit.now; x = result } ≡ with_noise x chance lead.entry.now }
{
    let end = lead.len() / 16 * 16;
    let mut here = x;
    for i in 0..end {
        if i % 16 >= 4 {
            let noisy = byte::with_noise(here, chance, lead[i]);
            lead[i] = noisy.byte;
            here = noisy.x;
        }
    }
    here
}
