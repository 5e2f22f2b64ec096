// Figures and their bytes.
ghost use Rattle.std.specs.Prelude.{◌≡◌, ℕ, ◌+◌, ◌*◌, ◌/◌, ◌%◌, ◌≤◌, ◌<◌, length, get_or};
ghost use Rattle.state_bytes.specs.Figures.{byte_of, spread, high_first, eight_at, figure_at_meant};

// Byte k of a figure's eight, the highest first.
fn byte_of(figure: u64, k: usize) -> u8
    requires { k < 8 }
    ensures { result ≡ byte_of figure k }
{
    ((figure >> (8 * (7 - k))) % 256) as u8
}

// Figure i of some; 0 beyond the last.
fn nth(figures: &[u64], i: usize) -> u64
    ensures { (result ≡ get_or figures.now i 0) × (result < 18446744073709551616) }
{
    if i < figures.len() {
        return figures[i];
    }
    0
}

// Some figures in a row into bytes, eight for each; bytes beyond the last figure are 0. Where there
// are eight for it, each figure reads back.
pub fn spread(figures: &[u64], bytes: &mut [u8])
    ensures bytes_after { bytes.new ≡ spread (length bytes.old) figures.now }
    ensures by_index { (i : ℕ) → i < length bytes.old / 8 → figure_at_meant bytes.new i ≡ get_or figures.now i 0 }
{
    for j in 0..bytes.len() {
        let figure = nth(figures, j / 8);
        bytes[j] = byte_of(figure, j % 8);
    }
}

fn wide(x: u8) -> u64
    ensures { (result ≡ x) × (result < 256) }
{
    x as u64
}

// Four bytes as a number, the highest first.
fn high_first(a: u8, b: u8, c: u8, d: u8) -> u64
    ensures { (result ≡ high_first a b c d) × (result < 4294967296) }
{
    ((wide(a) * 256 + wide(b)) * 256 + wide(c)) * 256 + wide(d)
}

// The eight bytes from figure i on as a number.
fn eight_at(bytes: &[u8], i: usize) -> u64
    requires { 8 * i + 8 ≤ length bytes.now }
    ensures { result ≡ eight_at bytes.now i }
{
    let at = 8 * i;
    let high = high_first(bytes[at], bytes[at + 1], bytes[at + 2], bytes[at + 3]);
    let low = high_first(bytes[at + 4], bytes[at + 5], bytes[at + 6], bytes[at + 7]);
    high * 4294967296 + low
}

// Figure i of some bytes; 0 where they end before it does.
pub fn figure_at(bytes: &[u8], i: usize) -> u64
    ensures { result ≡ figure_at_meant bytes.now i }
{
    if i < bytes.len() / 8 {
        return eight_at(bytes, i);
    }
    0
}

// The low 32 bits of a figure.
pub fn low32(figure: u64) -> u32
    ensures { result ≡ figure % 4294967296 }
{
    (figure % 4294967296) as u32
}

// The low sixteen bits of a figure.
pub fn low16(figure: u64) -> u16
    ensures { result ≡ figure % 65536 }
{
    (figure % 65536) as u16
}

// The low eight bits of a figure.
pub fn low8(figure: u64) -> u8
    ensures { result ≡ figure % 256 }
{
    (figure % 256) as u8
}
