// Test balises: their bits into a lent buffer.
ghost use Rattle.std.specs.Prelude.{◌≡◌};
ghost use Rattle.balise_writer.specs.Write.{write};
ghost use Rattle.abi.specs.Face.{returned, itself};

use balise_writer::Written;

// 4n + 1, with n telegrams of a test balise at the start of `out`; -2, -3, -4, -20 or -21.
pub fn atc2_write_balise(x: u8, y: u16, z: u8, s: u8, t: u8, n: u32, out: &mut [u8]) -> i32
    ensures value { result ≡ returned itself (write x y z s t n out.old).answer }
    ensures out_after { out.new ≡ (write x y z s t n out.old).buffer }
{
    match balise_writer::write(x, y, z, s, t, n, out) {
        Written::Bytes(bytes) => bytes as i32,
        Written::TooLarge => -2,
        Written::Fifteen => -3,
        Written::NotSeven => -4,
        Written::Count => -20,
        Written::Short => -21,
    }
}
