// A word in upper-case hexadecimal.
ghost use Rattle.std.specs.Prelude.{◌≡◌, ◌<◌};
ghost use Rattle.codes.specs.Hex.{digit, hex};

// The digit of a number below 16.
fn digit(n: u16) -> u8
    requires { n < 16 }
    ensures { result ≡ digit n }
{
    if n < 10 {
        b'0' + n as u8
    } else {
        b'A' + (n - 10) as u8
    }
}

// The four digits of a word.
pub fn hex(word: u16) -> [u8; 4]
    ensures { result ≡ hex word }
{
    [
        digit(word / 4096),
        digit(word / 256 % 16),
        digit(word / 16 % 16),
        digit(word % 16),
    ]
}
