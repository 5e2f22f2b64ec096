// The eight bytes of a record.
ghost use Rattle.std.specs.Prelude.{◌≡◌, ◌<◌};
ghost use Rattle.contact.specs.Says.{says_judged};
ghost use Rattle.recorder.specs.Record.{bytes_of, blank, record_of_meant};
ghost use Rattle.recording.specs.Kept.{or_unreadable, record_at};

use contact::Judged;

// A record without words.
pub fn blank_at(odometer: u32, kind: u8) -> [u8; 8]
    ensures { result ≡ bytes_of odometer (blank kind) }
{
    let a = (odometer / 16777216) as u8;
    let b = (odometer / 65536 % 256) as u8;
    let c = (odometer / 256 % 256) as u8;
    let d = (odometer % 256) as u8;
    [a, b, c, d, kind, 0, 0, 0]
}

// A reading's record, with its words.
fn information(odometer: u32, judged: Judged) -> [u8; 8]
    ensures { result ≡ or_unreadable odometer (record_of_meant odometer judged) }
{
    match recorder::record_of(odometer, judged) {
        Ok(bytes) => bytes,
        Err(_) => blank_at(odometer, 2),
    }
}

// The record of a contact that closed.
pub fn record_at(odometer: u32, judged: Judged) -> [u8; 8]
    ensures { result ≡ record_at odometer (says_judged judged) }
{
    match judged {
        Judged::Read {
            telegram: _,
            first: _,
            count: _,
        } => information(odometer, judged),
        Judged::Marker => blank_at(odometer, 1),
        Judged::NotSeven => blank_at(odometer, 2),
        Judged::Beyond => blank_at(odometer, 2),
        Judged::Differ => blank_at(odometer, 2),
        Judged::Neither => blank_at(odometer, 2),
    }
}
