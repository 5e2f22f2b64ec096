// Test balises: their bits into a lent buffer.
ghost use Rattle.std.specs.Prelude.{◌≡◌};
ghost use Rattle.balise_writer.specs.Write.{write};
ghost use Rattle.abi.specs.Face.{returned, itself};

// 4n + 1, with n telegrams of a test balise at the start of `out`; -2, -3, -4, -20 or -21.
#[unsafe(no_mangle)]
pub extern "C" fn atc2_write_balise(
    x: u8,
    y: u16,
    z: u8,
    s: u8,
    t: u8,
    n: u32,
    out: &mut [u8],
) -> i32
    ensures value { result ≡ returned itself (write x y z s t n out.old).answer }
    ensures out_after { out.new ≡ (write x y z s t n out.old).buffer }
{
    abi::balises::atc2_write_balise(x, y, z, s, t, n, out)
}
