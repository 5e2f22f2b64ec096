// Noise on a lead: bits of the line flip by chance, drawn by a generator whose state goes by value;
// for showing what noise does.
// Promises: each bit of the line flips exactly if the generator says so; odometers stay, and so do
// bytes after the last whole frame.
// Specification: specs/Generator.antt (which bits flip), specs/Noise.antt (the lead with noise),
// specs/Laws.antt (what is promised).
#![tactic(auto)]

ghost use Rattle.std.specs.Prelude.{◌≡◌};
ghost use Rattle.lead_noise.specs.Noise.{with_noise};

mod byte;
mod going;

// The lent piece of a lead with noise: x is the generator's number, `chance` of a million bits
// flip. It answers x after the piece.
pub fn add_noise(x: u32, chance: u32, lead: &mut [u8]) -> u32
    ensures { record { lead = lead.exit.now; x = result } ≡ with_noise x chance lead.entry.now }
{
    going::over(x, chance, lead)
}
