// Writing a figure as a word of n bits, 8 or 16: its bits in their positions, then the checks, then
// the exchange.
ghost use Rattle.std.specs.Prelude.{◌≡◌, ◌+◌, ◌≤◌, ◌<◌};
ghost use Rattle.words.specs.Answer.{pick};
ghost use Rattle.words.specs.Plain.{is_check, carried, count, covers, made_even};
ghost use Rattle.words.specs.Code.{other, exchanged, sent};

// The position with which i is exchanged.
fn other(i: u32) -> u32
    ensures { result ≡ other i }
{
    match i {
        3 => 4,
        4 => 3,
        11 => 12,
        12 => 11,
        _ => i,
    }
}

// Whether the position i is a check.
fn is_check(i: u32) -> bool
    ensures { result ≡ is_check i }
{
    match i {
        0 => true,
        1 => true,
        2 => true,
        4 => true,
        8 => true,
        _ => false,
    }
}

// 0 at a check, 1 at a position that carries a bit of the figure.
fn carrier(i: u32) -> u32
    ensures { result ≡ pick (is_check i) 0 1 }
{
    if is_check(i) { 0 } else { 1 }
}

// The figure x in its positions, with 0 at each check.
fn carried(x: u32, n: u32) -> u32
    requires { n ≤ 16 }
    ensures { (result ≡ carried n x) × (result < 65536) }
{
    let mut h: u32 = 0;
    let mut one: u32 = 1;
    let mut k: u32 = 0;
    for i in 0..n {
        let carries = carrier(i);
        let b = carries * ((x >> k) % 2);
        h += b * one;
        k += carries;
        one *= 2;
    }
    h
}

// 1 if check c looks at the position i, else 0.
fn covers(c: u32, i: u32) -> u32
    ensures { result ≡ covers c i }
{
    if c == 0 { 1 } else { i / c % 2 }
}

// How many ones of h check c looks at.
fn count(c: u32, h: u32, n: u32) -> u32
    requires { n ≤ 16 }
    ensures { result ≡ count (covers c) h n }
{
    let mut found: u32 = 0;
    for i in 0..n {
        found += covers(c, i) * ((h >> i) % 2);
    }
    found
}

// The word h with a one put at check c if its count is odd.
fn made_even(h: u32, c: u32, n: u32) -> u32
    requires { (n ≤ 16) × (c ≤ 8) × (h < 1048576) }
    ensures { (result ≡ made_even n h c) × (result ≤ h + 256) }
{
    h + count(c, h, n) % 2 * (1u32 << c)
}

// The word w of n bits with its bits exchanged.
fn exchanged(w: u32, n: u32) -> u32
    requires { n ≤ 16 }
    ensures { result ≡ exchanged n w }
{
    let mut e: u32 = 0;
    let mut one: u32 = 1;
    for i in 0..n {
        let at = other(i);
        let b = (w >> at) % 2;
        e += b * one;
        one *= 2;
    }
    e
}

// The word of n bits that is sent for the figure x.
pub fn sent(x: u32, n: u32) -> u32
    requires { n ≤ 16 }
    ensures { result ≡ sent n x }
{
    let bare = carried(x, n);
    let with8 = made_even(bare, 8, n);
    let with4 = made_even(with8, 4, n);
    let with2 = made_even(with4, 2, n);
    let with1 = made_even(with2, 1, n);
    let with0 = made_even(with1, 0, n);
    exchanged(with0, n)
}
