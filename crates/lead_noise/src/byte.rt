// One byte of the line.
ghost use Rattle.std.specs.Prelude.{◌≡◌, ◌<◌, ◌%◌, ltb};
ghost use Rattle.words.specs.Bits.{bit};
ghost use Rattle.lead_noise.specs.Generator.{next, drawn};
ghost use Rattle.lead_noise.specs.Noise.{noisy_bit, noisy_byte};

// A byte with noise, and the generator's number after it.
#[derive(Clone, Copy)]
pub struct Noisy {
    pub byte: u8,
    pub x: u32,
}

// What the generator's number becomes.
fn next(x: u32) -> u32
    ensures { result ≡ next x }
{
    (48271 * (x as u64) % 2147483647) as u32
}

// A bit, flipped exactly if x says so.
fn heard(x: u32, chance: u32, bit: u8) -> u8
    requires { bit < 2 }
    ensures value { result ≡ noisy_bit (ltb (x % 1000000) chance) bit }
    ensures upper_bound { result < 2 }
{
    if x % 1000000 < chance {
        return 1 - bit;
    }
    bit
}

// The byte with noise, bit after bit, the highest first.
pub fn with_noise(x: u32, chance: u32, byte: u8) -> Noisy
    ensures { result ≡ record { byte = noisy_byte x chance 0 byte; x = drawn x 8 } }
{
    let mut here = x;
    let mut made: u32 = 0;
    for i in 0..8u32 {
        here = next(here);
        made = made * 2 + heard(here, chance, (byte >> (7 - i)) % 2) as u32;
    }
    Noisy {
        byte: made as u8,
        x: here,
    }
}
