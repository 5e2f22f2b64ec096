// Lines from standard input.
ghost use Rattle.std.specs.Prelude.{◌≤◌, length};

use console::{Source, System, read_some};

// A line: how many bytes it has, whether the input ended before it began, and whether it filled its
// room: no command is that long.
#[derive(Clone, Copy)]
pub struct InputLine {
    pub count: usize,
    pub is_end: bool,
    pub is_long: bool,
}

// The next byte, if the input has not ended.
fn read_one(rt: &impl System) -> Option<u8> {
    let mut one = [0u8; 1];
    let got = read_some(rt, &mut Source::Given, &mut one);
    if got.count < 1 {
        return None;
    }
    Some(one[0])
}

// The byte after so many that stand in buf, if it has room, and how many there are then.
fn keep(byte: u8, buf: &mut [u8], count: usize) -> usize
    requires { count ≤ length buf.old }
    ensures { result ≤ length buf.old }
{
    if count < buf.len() {
        buf[count] = byte;
        return count + 1;
    }
    count
}

// The line of so many bytes in a room of so many.
fn line_of(count: usize, room: usize) -> InputLine
    ensures { result.count ≤ count }
{
    InputLine {
        count,
        is_end: false,
        is_long: count >= room,
    }
}

// The next line, without its newline, into buf. The last one may lack its newline. It takes no more
// turns than no run uses up.
pub fn next(rt: &impl System, buf: &mut [u8]) -> InputLine
    ensures { result.count ≤ length buf.old }
{
    let mut count: usize = 0;
    for _ in 0..u64::MAX {
        match read_one(rt) {
            Some(b'\n') => break,
            Some(byte) => count = keep(byte, buf, count),
            None => {
                if count == 0 {
                    return InputLine {
                        count: 0,
                        is_end: true,
                        is_long: false,
                    };
                }
                break;
            }
        }
    }
    line_of(count, buf.len())
}
