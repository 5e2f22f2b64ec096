// The bytes of a frame.
ghost use Rattle.std.specs.Prelude.{◌≡◌, ◌*◌, ◌++◌, take, drop};
ghost use Rattle.track_lead.specs.Sent.{twelve, line_in};
ghost use Rattle.track_lead.specs.Feed.{frame};

use crate::{Feed, Thing};

// The line of a balise's frame j: three words after each sync word, the sync words in turn.
fn balise(s: u8, t: u8, x: u8, y: u8, z: u8, j: u32) -> [u8; 12]
    ensures { result ≡ line_in s t (Thing.Balise x y z) j }
{
    match j {
        0 => [s, x, y, z, t, x, y, z, s, x, y, z],
        1 => [t, x, y, z, s, x, y, z, t, x, y, z],
        2 => [s, x, y, z, t, x, y, z, s, x, y, z],
        _ => [0xFF; 12],
    }
}

// The line of frame j of what sends twelve bytes, all the same.
fn once(byte: u8, j: u32) -> [u8; 12]
    ensures { result ≡ take 12 (drop (12 * j) (twelve byte) ++ twelve 255) }
{
    if j > 0 {
        return [0xFF; 12];
    }
    [byte; 12]
}

// The line of frame j of a thing.
fn line_in(s: u8, t: u8, thing: Thing, j: u32) -> [u8; 12]
    ensures { result ≡ line_in s t thing j }
{
    match thing {
        Thing::Balise { x, y, z } => balise(s, t, x, y, z, j),
        Thing::Marker => once(0x00, j),
        Thing::Unreadable => once(0x55, j),
        Thing::Nothing => [0xFF; 12],
    }
}

// The next frame of a feed.
pub fn frame(feed: Feed) -> [u8; 16]
    ensures { result ≡ frame feed }
{
    let thing = feed.thing;
    let place = feed.place;
    let l = line_in(feed.s, feed.t, thing, feed.since);
    let a = (place / 16777216 % 256) as u8;
    let b = (place / 65536 % 256) as u8;
    let c = (place / 256 % 256) as u8;
    let d = (place % 256) as u8;
    [
        a, b, c, d, l[0], l[1], l[2], l[3], l[4], l[5], l[6], l[7], l[8], l[9], l[10], l[11],
    ]
}
