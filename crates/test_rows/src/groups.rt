// Groups worked out by hand: a line holds the balises in the order passed, =, and what must come.
use crate::tally::Tally;
use crate::{answers, balises, say, tally};
use group::{Balise, Group, Heard};

// A group without balises.
fn empty() -> Group {
    let kept = [Balise {
        place: 0,
        heard: Heard::Marker,
    }; 5];
    Group {
        kept,
        count: 0,
        last: 0,
    }
}

// The group with one balise more, 100 dm beyond the last; 255 stands for 255 or more.
fn joined(g: Group, heard: Heard) -> Group {
    let mut kept = g.kept;
    let count = g.count;
    if count == 255 {
        return g;
    }
    let place = (count as u32 + 1) * 100;
    if count < 5 {
        kept[count as usize] = Balise { place, heard };
    }
    Group {
        kept,
        count: count + 1,
        last: place,
    }
}

// The balises that a text writes, with a blank between two, as a group; none where one is no balise.
fn group_of(text: &[u8]) -> Option<Group> {
    let mut group = empty();
    if text.is_empty() {
        return Some(group);
    }
    let written = text.strip_suffix(b" ").unwrap_or(text);
    for balise in written.split(|c| *c == b' ') {
        group = joined(group, balises::heard_of(balise)?);
    }
    Some(group)
}

// The first n bytes.
fn front(out: &[u8], n: usize) -> &[u8] {
    if n <= out.len() { &out[0..n] } else { out }
}

// Writes what came of a group; answers whether it is what must come.
fn is_so(rt: &impl Print, came: &[u8], wanted: &[u8]) -> bool {
    say::text(rt, came);
    let so = came == wanted;
    tally::end_line(rt, so, wanted);
    so
}

// Whether the judgement of a group is what must come.
fn is_judged_so(rt: &impl Print, g: Group, wanted: &[u8]) -> bool {
    let mut out = [0u8; 4096];
    let n = answers::put(group::judge(g), &mut out);
    is_so(rt, front(&out, n), wanted)
}

// One entry, counted, with a line for it.
pub fn entry(rt: &impl Print, before: Tally, line: &[u8]) -> Tally {
    let sign = figures::place_of(line, 0, b'=');
    if line.len() < 2 {
        return tally::out_of_place(rt, before, line);
    }
    if line.len() - 2 < sign {
        return tally::out_of_place(rt, before, line);
    }
    let from = sign + 2;
    let Some(group) = group_of(&line[0..sign]) else {
        return tally::out_of_place(rt, before, line);
    };
    say::text(rt, &line[0..from]);
    tally::entry(before, false, is_judged_so(rt, group, &line[from..]))
}
