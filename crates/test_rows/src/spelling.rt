// The numbers that fields spell.
ghost use Rattle.std.specs.Prelude.{◌≡◌};
ghost use Rattle.test_rows.specs.Spelling.{spells, figure_of};

// Whether a text spells the number n.
pub fn spells(text: &[u8], n: u64) -> bool
    ensures { result ≡ spells text.now n }
{
    match figures::decimal(text, 9999999) {
        Ok(m) => m == n,
        Err(_) => false,
    }
}

// The figure that a text spells, or 255.
pub fn figure(text: &[u8]) -> u8
    ensures { result ≡ figure_of text.now }
{
    match figures::decimal(text, 15) {
        Ok(m) => m as u8,
        Err(_) => 255,
    }
}
