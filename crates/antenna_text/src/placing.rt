// Places of a contact, counted from the first bit of the line.
ghost use Rattle.std.specs.Prelude.{◌≡◌, ◌+◌, ◌-◌};
ghost use Rattle.contact.specs.Says.{says_judged};
ghost use Rattle.antenna.specs.Line.{placed};
ghost use Rattle.antenna_text.specs.Lines.{shown, judged_as};

use contact::Judged;

// The line's number of the first bit of a contact of so many bits that this bit of the line closes.
pub fn first_bit(end: usize, bits: usize) -> usize
    ensures { result ≡ end - bits }
{
    if end < bits { 0 } else { end - bits }
}

// The line's number of bit i of a contact that begins at this bit, up to 2^64 - 1.
pub fn number_at(start: usize, i: usize) -> usize
    ensures { result ≡ shown (start + i) }
{
    if start > usize::MAX - i {
        return usize::MAX;
    }
    start + i
}

// What was judged, with its first place counted from the first bit of the line.
pub fn placed(start: usize, judged: Judged) -> Judged
    ensures { result ≡ judged_as (placed start (says_judged judged)) }
{
    match judged {
        Judged::Read {
            telegram,
            first,
            count,
        } => Judged::Read {
            telegram,
            first: number_at(start, first),
            count,
        },
        Judged::Marker => Judged::Marker,
        Judged::NotSeven => Judged::NotSeven,
        Judged::Beyond => Judged::Beyond,
        Judged::Differ => Judged::Differ,
        Judged::Neither => Judged::Neither,
    }
}
