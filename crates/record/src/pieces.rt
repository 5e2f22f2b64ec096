// The leads, piece by piece.
use crate::out;
use crate::out::RecordsOut;
use console::System;
use recording::Tape;
use recording_text::{Frames, Records};
use settings::Store;

// Where the recording stands: the tape, what was counted, and whether all writes so far succeeded.
#[derive(Clone, Copy)]
struct RecordedSoFar {
    tape: Tape,
    frames: Frames,
    records: Records,
    is_good: bool,
}

// Counts the frames of a piece, and says the first refused one.
fn count_frames(rt: &impl System, frames: Frames, piece: &[u8]) -> Frames {
    let counted = recording_text::count_frames(frames, piece);
    let before = frames.first;
    let after = counted.first;
    out::say_first(rt, before, after);
    counted
}

// The records of a piece, in the buffer or written; the tape after it and what was counted.
fn over(
    rt: &impl System,
    from: RecordedSoFar,
    store: Store,
    piece: &[u8],
    buf: &mut [u8],
) -> RecordedSoFar {
    let mut tape = from.tape;
    let mut records = from.records;
    let mut out = RecordsOut {
        length: 0,
        is_good: true,
    };
    let mut frame: usize = 0;
    let mut bit: usize = 0;
    loop {
        let taken = recording::go_on(tape, store, piece, frame, bit);
        let next = taken.tape;
        tape = next;
        frame = taken.frame;
        bit = taken.bit;
        match taken.came {
            Some(bytes) => {
                records = recording_text::count_record(records, bytes);
                out = out::add(rt, out, bytes, buf);
            }
            None => {
                let frames = from.frames;
                let is_good = out::flush(rt, out, buf);
                return RecordedSoFar {
                    tape,
                    frames,
                    records,
                    is_good,
                };
            }
        }
    }
}

// The same of a piece whose frames are not counted yet.
fn counted(
    rt: &impl System,
    from: RecordedSoFar,
    store: Store,
    piece: &[u8],
    buf: &mut [u8],
) -> RecordedSoFar {
    let tape = from.tape;
    let records = from.records;
    let before = from.frames;
    let frames = count_frames(rt, before, piece);
    over(
        rt,
        RecordedSoFar {
            tape,
            frames,
            records,
            is_good: from.is_good,
        },
        store,
        piece,
        buf,
    )
}

// The records of the end, at most two; what stands then.
fn end(rt: &impl System, from: RecordedSoFar) -> RecordedSoFar {
    let mut buf = [0u8; 16];
    let mut tape = from.tape;
    let mut records = from.records;
    let mut out = RecordsOut {
        length: 0,
        is_good: true,
    };
    for _ in 0..2u32 {
        let ended = recording::end(tape);
        let next = ended.tape;
        tape = next;
        match ended.came {
            Some(bytes) => {
                records = recording_text::count_record(records, bytes);
                out = out::add(rt, out, bytes, &mut buf);
            }
            None => {
                break;
            }
        }
    }
    let frames = from.frames;
    let is_good = out::flush(rt, out, &buf);
    RecordedSoFar {
        tape,
        frames,
        records,
        is_good,
    }
}

// The end of the leads: its records, and what was counted, with so many bytes after the last whole
// frame.
fn at_end(rt: &impl System, from: RecordedSoFar, bytes: usize) {
    let stand = end(rt, from);
    if !stand.is_good {
        out::cannot_write(rt);
        return;
    }
    let frames = stand.frames;
    let records = stand.records;
    out::say_end(rt, frames, records, bytes);
}

// A recording that has not begun.
fn fresh() -> RecordedSoFar {
    RecordedSoFar {
        tape: recording::fresh(),
        frames: recording_text::no_frames(),
        records: recording_text::no_records(),
        is_good: true,
    }
}

// All leads from this argument on, and their end.
pub fn all(rt: &impl System, store: Store, first: usize) {
    let mut block = [0u8; 65536];
    let mut buf = [0u8; 65536];
    let mut stand = fresh();
    let went = leads::over_leads(rt, first, &mut block, |piece| {
        stand = counted(rt, stand, store, piece, &mut buf);
        stand.is_good
    });
    match went {
        Ok(Some(bytes)) => at_end(rt, stand, bytes),
        Ok(None) => out::cannot_write(rt),
        Err(failed) => leads::say(rt, b"record", Err(failed)),
    }
}
