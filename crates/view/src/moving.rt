// Bytes moved within a buffer.
ghost use Rattle.std.specs.Prelude.{◌≡◌, ◌-◌, ◌≤◌, length};

// The bytes from one place up to another, to the start of the buffer; how many they are.
pub fn to_start(buf: &mut [u8], from: usize, to: usize) -> usize
    requires { (from ≤ to) × (to ≤ length buf.old) }
    ensures { result ≡ to - from }
{
    buf.copy_within(from..to, 0);
    to - from
}
