// The file that an argument names, as far as a buffer holds it.
ghost use Rattle.std.specs.Prelude.{◌≤◌, length, IfSome};

use std::fs::File;
use std::io::Read;
use std::rt::{Env, Files};

// Opens the file that an argument names; none where that cannot be done.
// Stays as it is: a crate that both programs share, with contract and edits, is no plainer.
fn opened<R: Env + Files>(rt: &R, which: usize) -> Option<R::File> {
    let mut path = [0u8; 4096];
    let Ok(n) = rt.arg(which, &mut path) else {
        return None;
    };
    let Ok(name) = str::from_utf8(&path[..n]) else {
        return None;
    };
    File::open(rt, name).ok()
}

// One read into buf; no byte where the file ends, or the read fails.
fn read_some(file: &mut impl Read, buf: &mut [u8]) -> usize
    ensures { result ≤ length buf.new }
{
    match file.read(buf) {
        Ok(count) => count,
        Err(_) => 0,
    }
}

// Fills buf, as far as the file goes; how many bytes it then has.
fn fill(file: &mut impl Read, buf: &mut [u8]) -> usize
    ensures { result ≤ length buf.new }
{
    let mut have = 0;
    // Stays as it is: a for is no plainer, since how far each turn goes is what the read gave.
    while have < buf.len() {
        let count = read_some(file, &mut buf[have..]);
        if count == 0 {
            break;
        }
        have += count;
    }
    have
}

// Reads the file that an argument names, as far as the buffer holds it; none where it cannot be
// opened.
pub fn read_file(rt: &(impl Env + Files), which: usize, buf: &mut [u8]) -> Option<usize>
    ensures { IfSome result (λ n. n ≤ length buf.new) }
{
    let mut file = opened(rt, which)?;
    Some(fill(&mut file, buf))
}
