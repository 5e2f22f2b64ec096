// Lines, gathered in a buffer and written when it is full.

use console::System;

// The line of a telegram after those that stand; where it has no room, they are written first. The
// place after it.
pub fn add(rt: &impl System, x: u8, y: u16, z: u8, buf: &mut [u8], at: usize) -> usize {
    let next = audibility::put_telegram(x, y, z, buf, at);
    if next > at {
        return next;
    }
    if console::put(rt, b"audible", buf, at) {
        return audibility::put_telegram(x, y, z, buf, 0);
    }
    at
}

// The last line.
pub fn close(rt: &impl System, telegrams: u32, numbers: u32) {
    let mut line = [0u8; 128];
    let count = audibility::put_count(telegrams, numbers, &mut line, 0);
    console::put(rt, b"audible", &line, count);
}
