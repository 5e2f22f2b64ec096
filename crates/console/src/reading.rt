// Reading a file in blocks of 64 KiB.
ghost use Rattle.std.specs.Prelude.{◌≤◌, length, IfOk};

use crate::progress::{Far, go_on_somehow};
use crate::system::{Source, System};
use std::io;
use std::io::Read;

// How many bytes were read, and whether a read failed then.
// Stays as it is: what may not change (`fill`: what came before a read that failed counts).
#[derive(Clone, Copy)]
pub struct Filled {
    pub count: usize,
    pub failed: bool,
}

// One read into buf.
fn read_once(rt: &impl System, from: &mut Source, buf: &mut [u8]) -> io::Result<usize>
    ensures { IfOk result (λ n. n ≤ length buf.old) }
{
    match from {
        Source::Opened(file) => file.read(buf),
        Source::Given => rt.reader().read(buf),
    }
}

// Reads once into buf: no byte where the file ends.
pub fn read_some(rt: &impl System, from: &mut Source, buf: &mut [u8]) -> Filled
    ensures { result.count ≤ length buf.old }
{
    match read_once(rt, from, buf) {
        Ok(count) => Filled {
            count,
            failed: false,
        },
        Err(_) => Filled {
            count: 0,
            failed: true,
        },
    }
}

// Fills buf; a count below its length says that the file ends there.
pub fn fill(rt: &impl System, from: &mut Source, buf: &mut [u8]) -> Filled
    ensures { result.count ≤ length buf.old }
{
    let mut have = 0;
    let mut failed = false;
    // Stays as it is: the new form is no plainer, a turn goes on by as many bytes as came.
    while have < buf.len() {
        let got = read_some(rt, from, &mut buf[have..]);
        failed = got.failed;
        let count = got.count;
        if count == 0 {
            break;
        }
        have += count;
    }
    Filled {
        count: have,
        failed,
    }
}

// The length of the file from here on, if it can be read, by way of block: block after block up to
// one that is empty; and how far the work is. A proved loop has to end, and nothing says that a file
// does: so the loop takes no more turns than no run uses up.
pub fn length_of(
    rt: &impl System,
    from: &mut Source,
    block: &mut [u8],
    far: &mut Far,
) -> Option<u64> {
    let mut bytes: u64 = 0;
    for _ in 0..u64::MAX {
        let got = fill(rt, from, block);
        if got.failed {
            return None;
        }
        if got.count == 0 {
            return Some(bytes);
        }
        bytes = bytes.checked_add(got.count as u64)?;
        *far = go_on_somehow(rt, *far, false, got.count);
    }
    None
}
