// The telegrams, one after the other.
use crate::out;
use audibility::Sound;
use console::System;

// What is listed so far: the place after the lines that stand in the buffer, and how many there
// are. There are 5,198 telegrams.
#[derive(Clone, Copy)]
pub struct ListedSoFar {
    pub at: usize,
    pub count: u32,
}

// Lists the telegram x, y, z if it is broken.
fn add(
    rt: &impl System,
    x: u8,
    y: u16,
    z: u8,
    s: u8,
    t: u8,
    buf: &mut [u8],
    listed: ListedSoFar,
) -> ListedSoFar {
    let at = listed.at;
    let count = listed.count;
    let Sound::Broken = audibility::sound_of(x, y, z, s, t) else {
        return ListedSoFar { at, count };
    };
    if count >= 5198 {
        return ListedSoFar { at, count };
    }
    let next = out::add(rt, x, y, z, buf, at);
    ListedSoFar {
        at: next,
        count: count + 1,
    }
}

// Three figures: X, Y and Z are the digits of n to the base 16. Those of a number are listed apart.
fn add_figures(
    rt: &impl System,
    n: u16,
    s: u8,
    t: u8,
    buf: &mut [u8],
    listed: ListedSoFar,
) -> ListedSoFar {
    let x = (n / 256 % 16) as u8;
    let y = n / 16 % 16;
    let z = (n % 16) as u8;
    if x == 12 {
        return listed;
    }
    add(rt, x, y, z, s, t, buf, listed)
}

// All telegrams of three figures.
fn figures(rt: &impl System, s: u8, t: u8, buf: &mut [u8]) -> ListedSoFar {
    let mut listed = ListedSoFar { at: 0, count: 0 };
    for n in 0..4096u16 {
        listed = add_figures(rt, n, s, t, buf, listed);
    }
    listed
}

// All numbers, after what stands in the buffer.
fn numbers(rt: &impl System, s: u8, t: u8, buf: &mut [u8], at: usize) -> ListedSoFar {
    let mut listed = ListedSoFar { at, count: 0 };
    for n in 0..2048u16 {
        listed = add(rt, 12, n, 0, s, t, buf, listed);
    }
    listed
}

// The whole list.
pub fn all(rt: &impl System, s: u8, t: u8) {
    let mut buf = [0u8; 4096];
    let telegrams = figures(rt, s, t, &mut buf);
    let count = telegrams.count;
    let listed = numbers(rt, s, t, &mut buf, telegrams.at);
    if console::put(rt, b"audible", &buf, listed.at) {
        out::close(rt, count, listed.count);
    }
}
