// How many records there were, and how many are kept.
ghost use Rattle.std.specs.Prelude.{◌≡◌};
ghost use Rattle.compact.specs.Counting.{added};

use console::{Stream, System};

// Two counts added; a sum that no trace reaches stays at the highest number.
pub fn more(count: u64, by: usize) -> u64
    ensures { result ≡ added count by }
{
    let by = by as u64;
    if by > u64::MAX - count {
        return u64::MAX;
    }
    count + by
}

// `compact: 86400 records, 1200 kept` on standard error.
pub fn say(rt: &impl System, records: u64, kept: u64) {
    let mut line = [0u8; 80];
    let second = text::put_number(b"compact: ", records, &mut line, 0);
    let third = text::put_number(b" records, ", kept, &mut line, second);
    let end = text::put(b" kept\n", &mut line, third);
    console::write(rt, Stream::Error, &line, end);
}
