// Reading a received word: a short one by the code's sixteen words, a long one by its five checks.
ghost use Rattle.std.specs.Prelude.{◌≡◌, ◌%◌, ◌<◌, eqb};
ghost use Rattle.std.specs.Int.Count.{ones};
ghost use Rattle.words.specs.Plain.{is_code, figure};
ghost use Rattle.words.specs.Code.{exchanged};
ghost use Rattle.words.specs.Why.{parity};

use crate::Parity;

// The positions that each check looks at, in a word as received: bits 3 and 4 stand exchanged
// there, and 11 and 12.
const CHECK_8: u32 = 0xFF00;

const CHECK_4: u32 = 0xE8E8;

const CHECK_2: u32 = 0xD4D4;

const CHECK_1: u32 = 0xB2B2;

const CHECK_0: u32 = 0xFFFF;

// Whether the number of ones is even.
fn is_even(w: u32) -> bool
    ensures { result ≡ eqb (ones w % 2) 0 }
{
    u32::count_ones(w) % 2 == 0
}

// The words of the short code, by figure, as document 01 prints them.
const SHORT: [u8; 16] = [
    0x00, 0x17, 0x2B, 0x3C, 0x4D, 0x5A, 0x66, 0x71, 0x8E, 0x99, 0xA5, 0xB2, 0xC3, 0xD4, 0xE8, 0xFF,
];

// Whether the received byte w is a code word of the short code: that of the figure in its high four
// bits.
pub fn is_short(w: u8) -> bool
    ensures { result ≡ is_code 8 (exchanged 8 w) }
{
    SHORT[(w / 16) as usize] == w
}

// Whether the received word w is a code word of the long code: each check's count of ones is even.
pub fn is_code(w: u32) -> bool
    requires { w < 65536 }
    ensures { result ≡ is_code 16 (exchanged 16 w) }
{
    is_even(w & CHECK_8)
        && is_even(w & CHECK_4)
        && is_even(w & CHECK_2)
        && is_even(w & CHECK_1)
        && is_even(w & CHECK_0)
}

// Whether the ones of the received word w, of the long code, or of the short one if it is a byte,
// are odd or even in number.
pub fn parity(w: u32) -> Parity
    requires { w < 65536 }
    ensures { (result ≡ parity 16 w) × (w < 256 → result ≡ parity 8 w) }
{
    if is_even(w) {
        Parity::Even
    } else {
        Parity::Odd
    }
}

// The figure that the received word w of the long code carries: bits 15, 14, 13, 11, 12, 10, 9 and
// 7 to 4.
pub fn figure(w: u32) -> u32
    requires { w < 65536 }
    ensures { result ≡ figure 16 (exchanged 16 w) }
{
    w / 8192 * 256 + w / 2048 % 2 * 128 + w / 4096 % 2 * 64 + w / 512 % 4 * 16 + w / 16 % 16
}
