// The lead piece by piece: in, with noise, out.
use console::System;

// All that the lead gives, as it comes: the whole frames get their noise and go out; at the end the
// bytes of a frame that is not whole, as they came.
pub fn all(rt: &impl System, seed: u32, chance: u32, block: &mut [u8]) {
    let mut x = seed;
    let went = leads::over_leads(rt, 3, block, |frames| {
        x = lead_noise::add_noise(x, chance, frames);
        console::put(rt, b"noise", frames, frames.len())
    });
    match went {
        Ok(Some(kept)) => {
            console::put(rt, b"noise", block, kept);
        }
        Ok(None) => {}
        Err(failed) => leads::say(rt, b"noise", Err(failed)),
    }
}
