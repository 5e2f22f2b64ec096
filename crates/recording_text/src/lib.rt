// What `record` counts and says while it records a lead: whole frames and refused ones, records by
// what they say, and the lines of standard error.
// Promises: a frame is refused exactly where the recording keeps the last accepted odometer; lines
// are written to the letter and whole, or not at all.
// Specification: specs/Counts.antt (what is counted), specs/Lines.antt (the words), specs/Laws.antt
// (what is promised); a text in a buffer is `text`'s specs/Put.antt.
#![tactic(auto)]

ghost use Rattle.std.specs.Prelude.{◌≡◌};
ghost use Rattle.text.specs.Put.{put, came};
ghost use Rattle.recording_text.specs.Counts.{no_frames, count_frames, no_records, count_record};
ghost use Rattle.recording_text.specs.Lines.{first_line, end_lines};

mod counts;
mod lines;

// A frame whose odometer was refused: its number, counted from 1, and 17 or 18.
#[derive(Clone, Copy)]
pub struct RefusedFrame {
    pub frame: u64,
    pub number: u8,
}

// Whole frames so far, those refused among them, the first of these if there is one, and the last
// accepted odometer.
#[derive(Clone, Copy)]
pub struct Frames {
    pub frames: u64,
    pub refused: u64,
    pub first: Option<RefusedFrame>,
    pub odometer: u32,
}

// Records so far, the contacts among them, and what these were.
#[derive(Clone, Copy)]
pub struct Records {
    pub contacts: u64,
    pub read: u64,
    pub markers: u64,
    pub unreadable: u64,
    pub records: u64,
}

// Before any frame.
pub fn no_frames() -> Frames
    ensures { result ≡ no_frames }
{
    Frames {
        frames: 0,
        refused: 0,
        first: None,
        odometer: 0,
    }
}

// The whole frames of a piece of the lead, counted after those before it.
pub fn count_frames(frames: Frames, piece: &[u8]) -> Frames
    ensures { result ≡ count_frames frames piece.now }
{
    counts::over(frames, piece)
}

// Before any record.
pub fn no_records() -> Records
    ensures { result ≡ no_records }
{
    Records {
        contacts: 0,
        read: 0,
        markers: 0,
        unreadable: 0,
        records: 0,
    }
}

// One record more.
pub fn count_record(records: Records, bytes: [u8; 8]) -> Records
    ensures { result ≡ count_record records bytes }
{
    let kind = bytes[4];
    Records {
        contacts: counts::more_if(kind < 3, records.contacts),
        read: counts::more_if(kind == 0, records.read),
        markers: counts::more_if(kind == 1, records.markers),
        unreadable: counts::more_if(kind == 2, records.unreadable),
        records: counts::more(records.records),
    }
}

// What is said of the first refused frame after some frames, into buf from `at` on, and the place
// after it; without room buf stays as it is, and the answer is `at`.
pub fn put_first(
    before: Option<RefusedFrame>,
    after: Option<RefusedFrame>,
    buf: &mut [u8],
    at: usize,
) -> usize
    ensures { came result buf.new ≡ put (first_line before after) buf.old at }
{
    let mut space = [0u8; 128];
    let n = lines::spell_first(before, after, &mut space, 0);
    text::put(&space[..n], buf, at)
}

// What is said at the end, with so many bytes after the last whole frame, likewise.
pub fn put_end(frames: Frames, records: Records, bytes: usize, buf: &mut [u8], at: usize) -> usize
    ensures { came result buf.new ≡ put (end_lines frames records bytes) buf.old at }
{
    let mut space = [0u8; 384];
    let n = lines::spell_end(frames, records, bytes, &mut space, 0);
    text::put(&space[..n], buf, at)
}
