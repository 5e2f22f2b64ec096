// The lines, piece by piece, where there is room for them.
ghost use Rattle.std.specs.Prelude.{◌≡◌, ◌+◌, ◌≤◌, length};
ghost use Rattle.text.specs.Put.{put, came};
ghost use Rattle.telegram.specs.Spelling.{asked};
ghost use Rattle.audibility.specs.Lines.{telegram_line, count_line};

use text::{put, put_number};

// The line of a telegram.
pub fn put_figures(x: u8, y: u16, z: u8, buf: &mut [u8], at: usize) -> usize
    requires { at + length (telegram_line (asked x y z)) ≤ length buf.old }
    ensures { came result buf.new ≡ put (telegram_line (asked x y z)) buf.old at }
{
    if x == 12 {
        let a = put_number(b"12 ", y as u64, buf, at);
        return put(b"\n", buf, a);
    }
    let a = put_number(b"", x as u64, buf, at);
    let b = put_number(b" ", y as u64, buf, a);
    let c = put_number(b" ", z as u64, buf, b);
    put(b"\n", buf, c)
}

// The last line.
pub fn put_counts(telegrams: u32, numbers: u32, buf: &mut [u8], at: usize) -> usize
    requires { at + length (count_line telegrams numbers) ≤ length buf.old }
    ensures { came result buf.new ≡ put (count_line telegrams numbers) buf.old at }
{
    let a = put_number(b"", telegrams as u64, buf, at);
    let b = put_number(b" telegrams and ", numbers as u64, buf, a);
    put(b" numbers are never read with this pair\n", buf, b)
}
