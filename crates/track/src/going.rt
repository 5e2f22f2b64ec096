// The text, line by line, gone over twice.
use crate::call::TrackCall;
use crate::taking::{Laying, PassWrong};
use crate::{saying, taking};
use console::{Source, System};
use track_lead::TrackWay;

// One pass over the open text, all lines of it. It takes no more turns than no text uses up.
fn pass(
    rt: &impl System,
    file: &mut Source,
    begun: Laying,
    text: &mut [u8],
    room: &mut [u8],
) -> Result<Laying, PassWrong> {
    let mut pass = typed_lines::begin();
    let mut stand = begun;
    for _ in 0..u64::MAX {
        let Some(next) = typed_lines::next(rt, file, pass, text)? else {
            return Ok(stand);
        };
        pass = next.pass;
        let line = next.line;
        stand = taking::take(rt, stand, line, next.number, room)?;
    }
    Err(PassWrong::CannotRead)
}

// A pass at the text's beginning, over a way that is known so far.
fn begun(call: TrackCall, way: TrackWay, writes: bool) -> Laying {
    Laying {
        writes,
        way,
        feed: track_lead::begin(way, call.n, call.s, call.t),
    }
}

// The second pass: the frames, those up to the way's end after the last thing too.
fn feed(
    rt: &impl System,
    file: &mut Source,
    call: TrackCall,
    way: TrackWay,
    text: &mut [u8],
    room: &mut [u8],
) -> Result<(), PassWrong> {
    let stand = pass(rt, file, begun(call, way, true), text, room)?;
    let way = stand.way;
    taking::write_to(rt, stand, track_lead::until(way), room)?;
    Ok(())
}

// The frames of a text of which nothing is refused, if it can be gone over a second time.
fn feed_again(
    rt: &impl System,
    file: &mut Source,
    call: TrackCall,
    way: TrackWay,
    text: &mut [u8],
    room: &mut [u8],
) {
    if !console::to_start(file) {
        console::only_once(rt, b"track", 1);
        return;
    }
    if let Err(wrong) = feed(rt, file, call, way, text, room) {
        saying::say(rt, wrong);
    }
}

// Once for what is refused, once for the frames.
fn over_twice(
    rt: &impl System,
    file: &mut Source,
    call: TrackCall,
    text: &mut [u8],
    room: &mut [u8],
) {
    let fresh = begun(call, track_lead::fresh(), false);
    match pass(rt, file, fresh, text, room) {
        Ok(judged) => {
            let way = judged.way;
            feed_again(rt, file, call, way, text, room);
        }
        Err(wrong) => saying::say(rt, wrong),
    }
}

// The text that argument 1 names.
pub fn twice(rt: &impl System, call: TrackCall, text: &mut [u8], room: &mut [u8]) {
    let Some(mut file) = console::open_card(rt, 1) else {
        console::cannot_open(rt, b"track", 1);
        return;
    };
    over_twice(rt, &mut file, call, text, room);
}
