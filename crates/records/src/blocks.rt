// The records of the cards, block by block.
ghost use Rattle.std.specs.Prelude.{◌≡◌, length};

use console::System;
use trace_text::Said;

// 8,192 bytes: 1,024 records, whose lines have 50 bytes each at most.
pub fn room() -> [u8; 8192]
    ensures { 8192 ≡ length result }
{
    [0; 8192]
}

// How many bytes of lines stand in a buffer, and how many records they are of all.
#[derive(Clone, Copy)]
struct LinesPut {
    bytes: usize,
    count: u64,
}

// The line of a record, after those before it.
fn put_one(lines: LinesPut, record: &[u8], out: &mut [u8]) -> LinesPut {
    let said = trace_text::thing_at(record, 0);
    let Said::Thing { place, what } = said else {
        return lines;
    };
    let count = std::num::wrapping_add_u64(lines.count, 1);
    let bytes = trace_text::put_record(count, place, what, out, lines.bytes);
    LinesPut { bytes, count }
}

// The lines of a block of records, counted on.
fn put_block(before: u64, block: &[u8], out: &mut [u8]) -> LinesPut {
    let mut lines = LinesPut {
        bytes: 0,
        count: before,
    };
    for record in block.chunks(8) {
        lines = put_one(lines, record, out);
    }
    lines
}

// Writes the lines of a block after so many records; how many there are then, if that succeeded.
fn write_block(rt: &impl System, before: u64, block: &[u8]) -> Option<u64> {
    let mut out = [0u8; 65536];
    let lines = put_block(before, block, &mut out);
    let bytes = lines.bytes;
    if bytes > 65536 {
        return None;
    }
    if rt.write_all(&out[..bytes]).is_err() {
        return None;
    }
    Some(lines.count)
}

// The lines of all records of the cards, whose lengths were kept; or what failed.
pub fn write_cards(rt: &impl System, lengths: &[u64], block: &mut [u8]) {
    let mut count = 0;
    let went = console::over_cards(rt, 1, lengths, block, |records| {
        let Some(then) = write_block(rt, count, records) else {
            return false;
        };
        count = then;
        true
    });
    match went {
        Ok(true) => {}
        Ok(false) => console::cannot_write(rt, b"records"),
        Err(failed) => console::say_goes(rt, b"records", Err(failed)),
    }
}
