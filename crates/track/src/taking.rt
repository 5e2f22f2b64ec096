// One line of the text, in the first pass and in the second.
ghost use Rattle.std.specs.Prelude.{◌≡◌};

use console::{Stream, System};
use lines::TextLine;
use track_lead::{Feed, Taken, Thing, TrackWay};
use track_text::Entry;
use typed_lines::CannotRead;

// Why a line is not taken.
#[derive(Clone, Copy, PartialEq, Eq)]
pub enum LineWrong {
    Unreadable,
    TooLarge,
    Fifteen,
    TooHigh,
    Lower,
    TooNear,
}

// Why a pass ends before the text does: the line of this number is not taken, or a read or a write
// failed.
#[derive(Clone, Copy, PartialEq, Eq)]
pub enum PassWrong {
    Line { number: u64, wrong: LineWrong },
    CannotRead,
    CannotWrite,
}

impl From<CannotRead> for PassWrong {
    ghost use Rattle.track.specs.declared.taking.PassWrong.{PassWrong};

    ghost from_gives = { λ _ e. e ≡ PassWrong.CannotRead };

    fn from(_cannot_read: CannotRead) -> PassWrong {
        PassWrong::CannotRead
    }
}

// A pass over the text: whether it writes (the second does), the way, and the feed.
#[derive(Clone, Copy)]
pub struct Laying {
    pub writes: bool,
    pub way: TrackWay,
    pub feed: Feed,
}

// The same pass with this feed.
fn with_feed(stand: Laying, feed: Feed) -> Laying {
    let way = stand.way;
    Laying {
        writes: stand.writes,
        way,
        feed,
    }
}

// All frames before the decimetre `to`, block after block up to one that is empty. It takes no more
// turns than no lead uses up.
pub fn write_to(
    rt: &impl System,
    stand: Laying,
    to: u32,
    room: &mut [u8],
) -> Result<Laying, PassWrong> {
    let mut feed = stand.feed;
    for _ in 0..u64::MAX {
        let wrote = track_lead::write(feed, to, room);
        feed = wrote.feed;
        let count = wrote.count;
        if count == 0 {
            break;
        }
        if !console::write(rt, Stream::Output, room, count) {
            return Err(PassWrong::CannotWrite);
        }
    }
    Ok(with_feed(stand, feed))
}

// A thing at its place, in the second pass: all frames before it, then it passes. A position passes
// nothing.
fn feed_to(
    rt: &impl System,
    stand: Laying,
    place: u32,
    thing: Thing,
    room: &mut [u8],
) -> Result<Laying, PassWrong> {
    if let Thing::Nothing = thing {
        return Ok(stand);
    }
    let there = write_to(rt, stand, place, room)?;
    let feed = there.feed;
    Ok(with_feed(there, track_lead::passes(feed, thing)))
}

// A thing at its place, in the first pass: the way after it.
fn judge(stand: Laying, place: u32, thing: Thing) -> Result<Laying, LineWrong> {
    let way = stand.way;
    match track_lead::take(way, place, thing) {
        Taken::On(next) => {
            let feed = stand.feed;
            Ok(Laying {
                writes: stand.writes,
                way: next,
                feed,
            })
        }
        Taken::TooHigh => Err(LineWrong::TooHigh),
        Taken::Lower => Err(LineWrong::Lower),
        Taken::TooNear => Err(LineWrong::TooNear),
    }
}

// A thing and its place, if the line has one.
fn thing_of(line: TextLine) -> Result<Option<(u32, Thing)>, LineWrong> {
    match track_text::read(line) {
        Entry::Nothing => Ok(None),
        Entry::At { place, thing } => Ok(Some((place, thing))),
        Entry::Unreadable => Err(LineWrong::Unreadable),
        Entry::TooLarge => Err(LineWrong::TooLarge),
        Entry::Fifteen => Err(LineWrong::Fifteen),
    }
}

// The pass after a line of this number.
pub fn take(
    rt: &impl System,
    stand: Laying,
    line: TextLine,
    number: u64,
    room: &mut [u8],
) -> Result<Laying, PassWrong> {
    match thing_of(line) {
        Ok(None) => Ok(stand),
        Ok(Some((place, thing))) => {
            if stand.writes {
                return feed_to(rt, stand, place, thing, room);
            }
            match judge(stand, place, thing) {
                Ok(then) => Ok(then),
                Err(wrong) => Err(PassWrong::Line { number, wrong }),
            }
        }
        Err(wrong) => Err(PassWrong::Line { number, wrong }),
    }
}
