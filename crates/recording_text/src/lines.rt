// The lines, piece by piece, where there is room for them.
ghost use Rattle.std.specs.Prelude.{◌≡◌, ◌+◌, ◌≤◌, ◌++◌, length};
ghost use Rattle.text.specs.Text.{codes, decimal};
ghost use Rattle.text.specs.Put.{put, came};
ghost use Rattle.recording_text.specs.Lines.{refused_line, first_line, where_any, sum_line, end_lines};

use crate::{Frames, Records, RefusedFrame};
use refusals::put_refused;
use text::{put, put_number};

// The line of a refused frame.
fn spell_refused(frame: u64, number: u8, buf: &mut [u8], at: usize) -> usize
    requires { at + length (refused_line frame number) ≤ length buf.old }
    ensures { came result buf.new ≡ put (refused_line frame number) buf.old at }
{
    let a = put_number(b"record: frame ", frame, buf, at);
    let b = put(b" ", buf, a);
    put_refused(number, buf, b)
}

// That of the first one, where it came just now.
pub fn spell_first(
    before: Option<RefusedFrame>,
    after: Option<RefusedFrame>,
    buf: &mut [u8],
    at: usize,
) -> usize
    requires { at + length (first_line before after) ≤ length buf.old }
    ensures { came result buf.new ≡ put (first_line before after) buf.old at }
{
    match before {
        Some(_) => put(b"", buf, at),
        None => match after {
            None => put(b"", buf, at),
            Some(first) => spell_refused(first.frame, first.number, buf, at),
        },
    }
}

// A number after its words, where it is not 0.
fn spell_where_any(n: u64, words: &[u8], buf: &mut [u8], at: usize) -> usize
    requires { at + length (where_any n words.now) ≤ length buf.old }
    ensures { came result buf.new ≡ put (where_any n words.now) buf.old at }
{
    if n == 0 {
        return put(b"", buf, at);
    }
    let a = put_number(words, n, buf, at);
    put(b"\n", buf, a)
}

// The first half of the line that is always said.
fn spell_contacts(frames: u64, contacts: u64, read: u64, buf: &mut [u8], at: usize) -> usize
    requires { at + length ((codes "record: frames " ++ decimal frames) ++ (codes ", contacts " ++ decimal contacts) ++ (codes ", read " ++ decimal read)) ≤ length buf.old }
    ensures { came result buf.new ≡ put ((codes "record: frames " ++ decimal frames) ++ (codes ", contacts " ++ decimal contacts) ++ (codes ", read " ++ decimal read)) buf.old at }
{
    let a = put_number(b"record: frames ", frames, buf, at);
    let b = put_number(b", contacts ", contacts, buf, a);
    put_number(b", read ", read, buf, b)
}

// Its second half.
fn spell_others(markers: u64, unreadable: u64, records: u64, buf: &mut [u8], at: usize) -> usize
    requires { at + length ((codes ", markers " ++ decimal markers) ++ (codes ", unreadable " ++ decimal unreadable) ++ (codes ", records " ++ decimal records) ++ codes "\n") ≤ length buf.old }
    ensures { came result buf.new ≡ put ((codes ", markers " ++ decimal markers) ++ (codes ", unreadable " ++ decimal unreadable) ++ (codes ", records " ++ decimal records) ++ codes "\n") buf.old at }
{
    let a = put_number(b", markers ", markers, buf, at);
    let b = put_number(b", unreadable ", unreadable, buf, a);
    let c = put_number(b", records ", records, buf, b);
    put(b"\n", buf, c)
}

// The line that is always said.
fn spell_sum(frames: u64, records: Records, buf: &mut [u8], at: usize) -> usize
    requires { at + length (sum_line frames records) ≤ length buf.old }
    ensures { came result buf.new ≡ put (sum_line frames records) buf.old at }
{
    let a = spell_contacts(frames, records.contacts, records.read, buf, at);
    spell_others(records.markers, records.unreadable, records.records, buf, a)
}

// What is said at the end.
pub fn spell_end(frames: Frames, records: Records, bytes: usize, buf: &mut [u8], at: usize) -> usize
    requires { at + length (end_lines frames records bytes) ≤ length buf.old }
    ensures { came result buf.new ≡ put (end_lines frames records bytes) buf.old at }
{
    let a = spell_where_any(frames.refused, b"record: frames refused ", buf, at);
    let b = spell_where_any(bytes as u64, b"record: bytes after the last frame ", buf, a);
    spell_sum(frames.frames, records, buf, b)
}
