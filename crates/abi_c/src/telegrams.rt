// Telegrams: three words read as one, and the first place of a stretch.
ghost use Rattle.std.specs.Prelude.{◌≡◌};
ghost use Rattle.telegram.specs.Telegram.{telegram};
ghost use Rattle.telegram.specs.Place.{find};
ghost use Rattle.abi.specs.Face.{returned, left, as_one, told, found_number, found_put};

// Three received words as one number, or -1 or -3.
#[unsafe(no_mangle)]
pub extern "C" fn atc2_read_telegram(x: u8, y: u8, z: u8) -> i32
    ensures { result ≡ returned as_one (told (telegram x y z)) }
{
    abi::telegrams::atc2_read_telegram(x, y, z)
}

// 0, with the first place of the stretch and its telegram in `out`; -4, -5 or -6.
#[unsafe(no_mangle)]
pub extern "C" fn atc2_find(
    buf: &[u8],
    start: usize,
    len: usize,
    s: u8,
    t: u8,
    out: &mut [u64; 2],
) -> i32
    ensures value { result ≡ returned found_number (find buf.now start len s t) }
    ensures out_after { out.new ≡ left found_put (find buf.now start len s t) out.old }
{
    abi::telegrams::atc2_find(buf, start, len, s, t, out)
}
