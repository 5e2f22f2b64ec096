// Frame after frame into a lent buffer.
ghost use Rattle.std.specs.Prelude.{◌≡◌, ◌+◌, ◌<◌, ltb};
ghost use Rattle.words.specs.Answer.{pick};
ghost use Rattle.track_lead.specs.Feed.{after, write};

use crate::sending::frame;
use crate::{Feed, Wrote};

// How many frames ago a thing began, up to 3, after one frame more.
fn since_after(since: u32) -> u32
    ensures { result ≡ pick (ltb since 3) (since + 1) 3 }
{
    if since < 3 {
        return since + 1;
    }
    3
}

// The feed after its next frame.
fn after(feed: Feed) -> Feed
    requires { feed.place < 4294967295 }
    ensures { result ≡ after feed }
{
    let thing = feed.thing;
    let since = since_after(feed.since);
    if (feed.nth as u64) + 1 < feed.n as u64 {
        return Feed {
            n: feed.n,
            s: feed.s,
            t: feed.t,
            place: feed.place,
            nth: feed.nth + 1,
            thing,
            since,
        };
    }
    Feed {
        n: feed.n,
        s: feed.s,
        t: feed.t,
        place: feed.place + 1,
        nth: 0,
        thing,
        since,
    }
}

pub fn write(feed: Feed, to: u32, out: &mut [u8]) -> Wrote
    ensures { record { feed = result.feed; count = result.count; buffer = out.new } ≡ write feed to out.old }
{
    let room = out.len() / 16;
    let mut here = feed;
    let mut k: usize = 0;
    while k < room {
        if here.place >= to {
            return Wrote {
                feed: here,
                count: 16 * k,
            };
        }
        let bytes = frame(here);
        text::put(&bytes, out, 16 * k);
        here = after(here);
        k += 1;
    }
    Wrote {
        feed: here,
        count: 16 * k,
    }
}
