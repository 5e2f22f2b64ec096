// The zeroes among sixteen bits, counted from every bit of a word upwards at once: a count is held
// as four words, and bit k of three of them is a digit of the count of the bits from bit k on, that
// of the fourth whether it is eight or more: how many more is not asked. A bit without a mark
// neither opens nor closes a contact; more is not asked of a mark.
ghost use Rattle.std.specs.Prelude.{◌≡◌, ℕ, ◌+◌, ◌-◌, ◌*◌, ◌/◌, ◌%◌, ◌<◌, ◌≤◌, ◌^◌};
ghost use Rattle.words.specs.Bits.{bit};
ghost use Rattle.contact.specs.History.{zeroes_of};

// A count: its three digits, lowest first, while it is below eight, and whether it is eight or
// more.
#[derive(Clone, Copy)]
struct Count {
    a: u64,
    b: u64,
    c: u64,
    d: u64,
}

// Three digits added at every bit: the lower digit of the sum.
fn sum(x: u64, y: u64, z: u64) -> u64
    ensures { (k : ℕ) → bit result k ≡ (bit x k + bit y k + bit z k) % 2 }
{
    x ^ y ^ z
}

// And the higher.
fn carry(x: u64, y: u64, z: u64) -> u64
    ensures { (k : ℕ) → bit result k ≡ (bit x k + bit y k + bit z k) / 2 }
{
    (x & y) | (z & (x ^ y))
}

// Whether any of three digits is set.
fn any(x: u64, y: u64, z: u64) -> u64
    ensures { (k : ℕ) → bit result k ≡ (bit x k + bit y k + bit z k + 2) / 3 }
{
    x | y | z
}

// At every bit the count from there and the count from m bits above.
fn doubled(n: Count, m: u64) -> Count
    requires { m < 64 }
    ensures by_index { (k : ℕ) → bit result.a k + 2 * bit result.b k + 4 * bit result.c k ≡ ((bit n.a k + 2 * bit n.b k + 4 * bit n.c k) + (bit n.a (m + k) + 2 * bit n.b (m + k) + 4 * bit n.c (m + k))) % 8 }
    ensures by_index_2 { (k : ℕ) → bit result.d k ≡ (bit n.d k + bit n.d (m + k) + ((bit n.a k + 2 * bit n.b k + 4 * bit n.c k) + (bit n.a (m + k) + 2 * bit n.b (m + k) + 4 * bit n.c (m + k))) / 8 + 2) / 3 }
{
    let a = sum(n.a, n.a >> m, 0);
    let x = carry(n.a, n.a >> m, 0);
    let b = sum(n.b, n.b >> m, x);
    let y = carry(n.b, n.b >> m, x);
    let c = sum(n.c, n.c >> m, y);
    let z = carry(n.c, n.c >> m, y);
    let d = any(n.d, n.d >> m, z);
    Count { a, b, c, d }
}

// The zeroes among the sixteen bits of w from each bit upwards.
fn counted(w: u64) -> Count
    ensures by_index { (k : ℕ) → k + 16 ≤ 64 → bit result.d k ≡ 0 → bit result.a k + 2 * bit result.b k + 4 * bit result.c k ≡ zeroes_of (w / 2 ^ k) 16 }
    ensures by_index_2 { (k : ℕ) → k + 16 ≤ 64 → 1 ≤ bit result.d k → 8 ≤ zeroes_of (w / 2 ^ k) 16 }
{
    let one = Count {
        a: w ^ u64::MAX,
        b: 0,
        c: 0,
        d: 0,
    };
    let two = doubled(one, 1);
    let four = doubled(two, 2);
    let eight = doubled(four, 4);
    doubled(eight, 8)
}

// Marks at the bits of w from which upwards eight or more of sixteen are zeroes.
pub fn opening(w: u64) -> u64
    ensures { (k : ℕ) → k + 16 ≤ 64 → bit result k ≡ 0 → zeroes_of (w / 2 ^ k) 16 < 8 }
{
    let n = counted(w);
    n.d
}

// Marks at the bits of w from which upwards four or fewer of sixteen are zeroes.
pub fn closing(w: u64) -> u64
    ensures { (k : ℕ) → k + 16 ≤ 64 → bit result k ≡ 0 → 4 < zeroes_of (w / 2 ^ k) 16 }
{
    let n = counted(w);
    (n.d | (n.c & (n.a | n.b))) ^ u64::MAX
}
