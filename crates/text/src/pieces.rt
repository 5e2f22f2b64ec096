// The pieces of a text: bytes and numbers, where there is room for them.
ghost use Rattle.std.specs.Prelude.{◌≡◌, ◌+◌, ◌≤◌, length};
ghost use Rattle.text.specs.Text.{decimal};
ghost use Rattle.text.specs.Put.{placed};

// The bytes into buf from `at` on; the place after them.
pub fn copy(bytes: &[u8], buf: &mut [u8], at: usize) -> usize
    requires { at + length bytes.now ≤ length buf.old }
    ensures value { result ≡ at + length bytes.now }
    ensures buf_after { buf.new ≡ placed bytes.now buf.old at }
{
    let mut i = 0;
    while i < bytes.len() {
        buf[at + i] = bytes[i];
        i += 1;
    }
    at + i
}

// How many digits a number has: four are taken off at a time.
pub fn places(n: u64) -> usize
    ensures { result ≡ length (decimal n) }
{
    let mut count = 1;
    let mut rest = n;
    while rest >= 10000 {
        rest /= 10000;
        count += 4;
    }
    if rest >= 1000 {
        return count + 3;
    }
    if rest >= 100 {
        return count + 2;
    }
    if rest >= 10 {
        return count + 1;
    }
    count
}

// The number in decimal into buf from `at` on and up to `end`, from its last digit to its first;
// the place after it.
pub fn spell(n: u64, buf: &mut [u8], at: usize, end: usize) -> usize
    requires { (end ≡ at + length (decimal n)) × (end ≤ length buf.old) }
    ensures value { result ≡ at + length (decimal n) }
    ensures buf_after { buf.new ≡ placed (decimal n) buf.old at }
{
    let mut i = end - 1;
    let mut rest = n;
    while rest >= 10 {
        buf[i] = 48 + (rest % 10) as u8;
        rest /= 10;
        i -= 1;
    }
    buf[i] = 48 + rest as u8;
    end
}
