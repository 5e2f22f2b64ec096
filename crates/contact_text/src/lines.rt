// The lines, piece by piece, where there is room for them.
ghost use Rattle.std.specs.Prelude.{◌≡◌, ◌+◌, ◌≤◌, length};
ghost use Rattle.text.specs.Put.{put, came};
ghost use Rattle.contact.specs.declared.Judged.{Judged};
ghost use Rattle.contact_text.specs.Lines.{figures, what, heard};

use contact::Judged;
use telegram::Telegram;
use text::{put, put_number};

// The figures of a telegram.
fn put_figures(telegram: Telegram, buf: &mut [u8], at: usize) -> usize
    requires { at + length (figures telegram) ≤ length buf.old }
    ensures { came result buf.new ≡ put (figures telegram) buf.old at }
{
    match telegram {
        Telegram::Figures(x, y, z) => {
            let a = put_number(b" ", x as u64, buf, at);
            let b = put_number(b" ", y as u64, buf, a);
            put_number(b" ", z as u64, buf, b)
        }
        Telegram::Number(m) => put_number(b" 12 ", m as u64, buf, at),
    }
}

// A telegram with the number of its places and the first of them.
fn put_read(telegram: Telegram, first: usize, count: usize, buf: &mut [u8], at: usize) -> usize
    requires { at + length (what (Judged.Read telegram first count)) ≤ length buf.old }
    ensures { came result buf.new ≡ put (what (Judged.Read telegram first count)) buf.old at }
{
    let a = put(b" telegram", buf, at);
    let b = put_figures(telegram, buf, a);
    let c = put_number(b" places ", count as u64, buf, b);
    put_number(b" from ", first as u64, buf, c)
}

// What a contact is.
fn put_what(judged: Judged, buf: &mut [u8], at: usize) -> usize
    requires { at + length (what judged) ≤ length buf.old }
    ensures { came result buf.new ≡ put (what judged) buf.old at }
{
    match judged {
        Judged::Read {
            telegram,
            first,
            count,
        } => put_read(telegram, first, count, buf, at),
        Judged::Marker => put(b" marker", buf, at),
        Judged::NotSeven => put(
            b" refused 4: sync pair doesn't differ in seven bits",
            buf,
            at,
        ),
        Judged::Beyond => put(b" refused 5: above 16,777,216 bits", buf, at),
        Judged::Differ => put(b" refused 7: places differ", buf, at),
        Judged::Neither => put(b" refused 8: contact neither telegram nor marker", buf, at),
    }
}

// The line of a contact.
pub fn put_heard(start: usize, bits: usize, judged: Judged, buf: &mut [u8], at: usize) -> usize
    requires { at + length (heard start bits judged) ≤ length buf.old }
    ensures { came result buf.new ≡ put (heard start bits judged) buf.old at }
{
    let a = put_number(b"", start as u64, buf, at);
    let b = put_number(b" ", bits as u64, buf, a);
    let c = put_what(judged, buf, b);
    put(b"\n", buf, c)
}
