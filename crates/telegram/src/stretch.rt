// Whether a stretch of bits lies inside a lent buffer, for any start and length.
ghost use Rattle.std.specs.Prelude.{◌≡◌};
ghost use Rattle.telegram.specs.Stretch.{inside};

// The most bits that a stretch may have.
const MOST_BITS: usize = 16777216;

// Whether the stretch is taken. No sum here leaves 64 bits: the end is counted in whole bytes.
pub fn is_inside(buf: &[u8], start: usize, len: usize) -> bool
    ensures { result ≡ inside buf.now start len }
{
    if MOST_BITS < len {
        return false;
    }
    if usize::MAX - len < start {
        return false;
    }
    let end = start + len;
    if buf.len() < end / 8 + (end % 8 + 7) / 8 {
        return false;
    }
    true
}
