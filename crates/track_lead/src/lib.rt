// The lead of a track: frames of odometer and line, as a bench that rides over the things of a text
// would give them. A way goes over the text's lines first; then a feed writes the frames, in blocks
// of any size.
// Promises: a line is taken or refused as the house's rules say; what is written, block by block
// and thing by thing, is the lead of the text.
// Specification: specs/Way.antt (the lines), specs/Sent.antt (what a thing sends), specs/Feed.antt
// (frame after frame), specs/Lead.antt (the lead of a text), specs/Says.antt (the answers),
// specs/Laws.antt (what is promised).
#![tactic(auto)]

ghost use Rattle.std.specs.Prelude.{◌≡◌};
ghost use Rattle.track_lead.specs.Way.{fresh, take, until};
ghost use Rattle.track_lead.specs.Feed.{begin, passes, write};
ghost use Rattle.track_lead.specs.Says.{says_taken};

mod feeding;
mod going;
mod sending;

// What stands at a place: a balise, by the words that it sends; a marker; what is unreadable; or
// nothing, a position only.
#[derive(Clone, Copy)]
pub enum Thing {
    Balise { x: u8, y: u8, z: u8 },
    Marker,
    Unreadable,
    Nothing,
}

// A place, if there is one.
#[derive(Clone, Copy)]
pub enum Place {
    Never,
    At(u32),
}

// A way: its first place, its last (0 before the first), and the last at which something is sent.
#[derive(Clone, Copy)]
pub struct TrackWay {
    pub first: Place,
    pub last: u32,
    pub thing: Place,
}

// What taking a line answers: the way after it, or why it is refused.
#[derive(Clone, Copy)]
pub enum Taken {
    On(TrackWay),
    TooHigh,
    Lower,
    TooNear,
}

// A feed: the frames to each decimetre, the sync pair; the next frame's odometer, and which of the
// decimetre's frames it is, from 0; the thing last begun, and how many frames ago, up to 3.
#[derive(Clone, Copy)]
pub struct Feed {
    pub n: u32,
    pub s: u8,
    pub t: u8,
    pub place: u32,
    pub nth: u32,
    pub thing: Thing,
    pub since: u32,
}

// What writing answers: the feed after it, and how many bytes were written.
#[derive(Clone, Copy)]
pub struct Wrote {
    pub feed: Feed,
    pub count: usize,
}

// Before the first line.
pub fn fresh() -> TrackWay
    ensures { result ≡ fresh }
{
    TrackWay {
        first: Place::Never,
        last: 0,
        thing: Place::Never,
    }
}

// One line of the text: the way after it, or refusal 18, 17, or that it is too near.
pub fn take(way: TrackWay, place: u32, thing: Thing) -> Taken
    ensures { says_taken result ≡ take way place thing }
{
    going::take(way, place, thing)
}

// The first decimetre after a way's lead; 0 for a way without a line.
pub fn until(way: TrackWay) -> u32
    ensures { result ≡ until way }
{
    going::until(way)
}

// A feed at the first frame of a way, with n frames to each decimetre and the sync pair s and t.
pub fn begin(way: TrackWay, n: u32, s: u8, t: u8) -> Feed
    ensures { result ≡ begin way n s t }
{
    Feed {
        n,
        s,
        t,
        place: going::from(way),
        nth: 0,
        thing: Thing::Nothing,
        since: 0,
    }
}

// A thing begins with the next frame.
pub fn passes(feed: Feed, thing: Thing) -> Feed
    ensures { result ≡ passes feed thing }
{
    Feed {
        n: feed.n,
        s: feed.s,
        t: feed.t,
        place: feed.place,
        nth: feed.nth,
        thing,
        since: 0,
    }
}

// The next frames into a lent buffer, as many as have room and lie before the decimetre `to`.
pub fn write(feed: Feed, to: u32, out: &mut [u8]) -> Wrote
    ensures { record { feed = result.feed; count = result.count; buffer = out.new } ≡ write feed to out.old }
{
    feeding::write(feed, to, out)
}
