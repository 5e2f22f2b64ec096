// What is said of settings that are not fine, piece by piece, where there is room for it.
ghost use Rattle.std.specs.Prelude.{◌≡◌, ◌+◌, ◌≤◌, length};
ghost use Rattle.text.specs.Put.{put, came};
ghost use Rattle.settings_text.specs.Told.{refusal, told};

use crate::Condition;
use refusals::put_refused;
use text::{put, put_number};

// A refusal, of a line or of none.
fn put_refusal(line: u32, number: u8, buf: &mut [u8], at: usize) -> usize
    requires { at + length (refusal line number) ≤ length buf.old }
    ensures { came result buf.new ≡ put (refusal line number) buf.old at }
{
    if line == 0 {
        let a = put(b"settings ", buf, at);
        return put_refused(number, buf, a);
    }
    let a = put_number(b"settings line ", line as u64, buf, at);
    let b = put(b" ", buf, a);
    put_refused(number, buf, b)
}

// What is said.
pub fn put_how(line: u32, how: Condition, buf: &mut [u8], at: usize) -> usize
    requires { at + length (told line how) ≤ length buf.old }
    ensures { came result buf.new ≡ put (told line how) buf.old at }
{
    match how {
        Condition::Fine => put(b"", buf, at),
        Condition::Unreadable => {
            let a = put_number(b"settings line ", line as u64, buf, at);
            put(b" unreadable\n", buf, a)
        }
        Condition::FirstPlace => {
            let a = put_number(b"settings line ", line as u64, buf, at);
            put(b" unreadable: first place not 0\n", buf, a)
        }
        Condition::Refused(number) => put_refusal(line, number, buf, at),
        Condition::TooLong => put(b"settings too long\n", buf, at),
    }
}
