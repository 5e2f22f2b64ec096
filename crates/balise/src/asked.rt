// What the arguments ask for.
ghost use Rattle.std.specs.Prelude.{◌≤◌};

use console::{CallWrong, Said, System};

// A balise: its figures, its sync words, the number of telegrams, and the bytes of quiet line
// around them.
#[derive(Clone, Copy)]
pub struct BaliseCall {
    pub x: u8,
    pub y: u16,
    pub z: u8,
    pub s: u8,
    pub t: u8,
    pub n: u32,
    pub idle: usize,
}

// Argument k, of this name, as a number up to `most`, which stands for all above it.
fn figure(rt: &impl System, name: &[u8], k: usize, most: u64) -> Result<u64, Said> {
    console::figure(rt, b"balise", name, k, most)
}

// The bytes of quiet line, argument k if there is one: 0 to 65,535.
fn idle(rt: &impl System, k: usize) -> Result<u64, Said> {
    if console::argument_count(rt) <= k {
        return Ok(0);
    }
    let Ok(n) = console::number(rt, k, 65535) else {
        console::wrong(rt, b"balise", b"IDLE", b"figure up to 65,535", k);
        return Err(Said);
    };
    Ok(n)
}

// The call with these figures, its sync words from argument k on. Of a figure of one byte, of two or
// of four the largest stands for all above it, and is refused as they are.
fn with_figures(rt: &impl System, x: u64, y: u64, z: u64, k: usize) -> Result<BaliseCall, CallWrong>
    requires { k ≤ 4 }
{
    let (s, t) = console::sync_pair(rt, b"balise", k)?;
    let n = figure(rt, b"N", k + 2, 4294967295)?;
    let idle = idle(rt, k + 3)?;
    Ok(BaliseCall {
        x: u8::try_from(x).unwrap_or(u8::MAX),
        y: u16::try_from(y).unwrap_or(u16::MAX),
        z: u8::try_from(z).unwrap_or(u8::MAX),
        s,
        t,
        n: u32::try_from(n).unwrap_or(u32::MAX),
        idle: idle as usize,
    })
}

// Whether there are so many arguments, the program's name among them, or one more.
fn are_there(words: usize, fewest: usize) -> bool {
    if words < fewest {
        return false;
    }
    words - fewest < 2
}

// A call with three figures.
fn by_figures(rt: &impl System, x: u64, y: u64) -> Result<BaliseCall, CallWrong> {
    if !are_there(console::argument_count(rt), 7) {
        return Err(CallWrong::Usage);
    }
    let z = figure(rt, b"Z", 3, 255)?;
    with_figures(rt, x, y, z, 4)
}

// A call with 12 and a number.
fn by_number(rt: &impl System, number: u64) -> Result<BaliseCall, CallWrong> {
    if !are_there(console::argument_count(rt), 6) {
        return Err(CallWrong::Usage);
    }
    with_figures(rt, 12, number, 0, 3)
}

// The whole call: three figures, or 12 and a number.
pub fn arguments(rt: &impl System) -> Result<BaliseCall, CallWrong> {
    if console::argument_count(rt) < 6 {
        return Err(CallWrong::Usage);
    }
    let x = figure(rt, b"X", 1, 255)?;
    let y = figure(rt, b"Y", 2, 65535)?;
    if x == 12 {
        return by_number(rt, y);
    }
    by_figures(rt, x, y)
}
