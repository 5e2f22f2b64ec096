// How many bits of a contact are drawn, and how many of them are asked for a telegram.
ghost use Rattle.std.specs.Prelude.{◌≡◌, ◌-◌};
ghost use Rattle.contact_drawing.specs.Strips.{drawn};

// How many bits of a contact of so many are drawn.
pub fn drawn(length: usize) -> usize
    ensures { result ≡ drawn length }
{
    if length > 2000 { 2000 } else { length }
}

// How many of n bits have 39 more after them.
pub fn beginnings(n: usize) -> usize
    ensures { result ≡ n - 39 }
{
    if n < 39 { 0 } else { n - 39 }
}
