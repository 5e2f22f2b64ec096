// What the arguments ask for.
use console::{CallWrong, System, number_in};

// A seed, 1 to 2,147,483,646, and how many bits in a million flip.
#[derive(Clone, Copy)]
pub struct NoiseCall {
    pub seed: u32,
    pub chance: u32,
}

// The whole call; a lead may follow.
pub fn arguments(rt: &impl System) -> Result<NoiseCall, CallWrong> {
    let count = console::argument_count(rt);
    if (count != 3) & (count != 4) {
        return Err(CallWrong::Usage);
    }
    let seed = number_in(rt, b"noise", b"SEED", 1, 1, 2147483646)?;
    let chance = number_in(rt, b"noise", b"N", 2, 0, 1000000)?;
    Ok(NoiseCall { seed, chance })
}
