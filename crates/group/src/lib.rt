// Balises as received, and the judgement of a closed group: rows, distances, speeds.
// Promises: a group is its message, or refused with 10, 11, 12, 13 or 15, exactly as document 01's
// rows and tables say.
// Specification: specs/Rows.antt of group_rows (the rows), specs/Judge.antt (the judgement),
// specs/Distance.antt, specs/Speed.antt, specs/Says.antt. 14 is not used: no group fits a row of
// each direction (specs/OneWay.antt of `group_rows`).
#![tactic(auto)]

ghost use Rattle.std.specs.Prelude.{◌≡◌};
ghost use Rattle.group.specs.Distance.{distance, no_increase};
ghost use Rattle.group.specs.Speed.{signal_speed};
ghost use Rattle.group.specs.Judge.{judge};
ghost use Rattle.group.specs.Says.{says_measured, says_group_judged};

mod contents;
mod judging;
mod numbers;
mod parts;
mod reading;
mod refusals;
mod tables;

use group_rows::{Direction, Kind};

// What was heard at a balise: three received words, a marker, or nothing readable.
#[derive(Clone, Copy)]
pub enum Heard {
    Words(u8, u8, u8),
    Marker,
    Unreadable,
}

// A balise as received: its place in dm, and what was heard there.
#[derive(Clone, Copy)]
pub struct Balise {
    pub place: u32,
    pub heard: Heard,
}

// A group: its first five balises, how many there were (255 stands for 255 or more), and the last
// one's place.
#[derive(Clone, Copy)]
pub struct Group {
    pub kept: [Balise; 5],
    pub count: u8,
    pub last: u32,
}

// What a figure tells of a speed.
#[derive(Clone, Copy)]
pub enum Told {
    Unknown,
    Kmh(u16),
}

// The figure of a group's number balise (12), or none.
#[derive(Clone, Copy)]
pub enum Number {
    None,
    Figure(u16),
}

// Refusal 15: the distance is not allowed.
#[derive(Clone, Copy, PartialEq, Eq)]
pub struct NoDistance;

// What a group says beyond its kind. The distance of a preset point is table DF's figure (BY 14):
// it announces no signal, and a ride links nothing by it.
#[derive(Clone, Copy)]
pub enum Content {
    Signal {
        distance: u32,
        preset: bool,
        main: Told,
        target: Told,
    },
    Warning {
        distance: u32,
    },
    Route(u16),
    Nothing,
}

// The message of an accepted group; place is that of its A balise.
#[derive(Clone, Copy)]
pub struct Message {
    pub direction: Direction,
    pub kind: Kind,
    pub place: u32,
    pub ay: u8,
    pub az: u8,
    pub number: Number,
    pub content: Content,
}

// Why a group is refused: 10, 11, 12, 13 and 15 in this order. 14 is not used.
#[derive(Clone, Copy, PartialEq, Eq)]
pub enum GroupRefused {
    One,
    Many,
    Unread,
    NoRow,
    NoDistance,
}

// The distance of a figure in column BY of table DF: base plus step times figure for columns 0 to
// 14 and figures 1 to 14, else refusal 15.
pub fn distance(by: u8, figure: u8) -> Result<u32, NoDistance>
    ensures { says_measured result ≡ distance by figure }
{
    if by > 14 {
        return Err(NoDistance);
    }
    match figure {
        1..=14 => {
            let i = by as usize;
            let d = tables::BASES[i] as i32 + tables::STEPS[i] * figure as i32;
            Ok(d as u32)
        }
        _ => Err(NoDistance),
    }
}

// Whether AZ, as read, is a target that a preset point cannot have: 0 or 40 km/h.
pub fn no_increase(az: u8) -> bool
    ensures { result ≡ no_increase az }
{
    (az == 0) | (az == 1) | (az == 13)
}

// The signal speed of a figure 0 to 13; no information from 14 on.
pub fn speed(figure: u8) -> Told
    ensures { result ≡ signal_speed figure }
{
    if figure < 14 {
        Told::Kmh(tables::SPEEDS[figure as usize])
    } else {
        Told::Unknown
    }
}

// The message of a closed group by the rows, with the figure of its number balise or none; or
// refusal 10, 11, 12, 13, 15 in this order.
pub fn judge(group: Group) -> Result<Message, GroupRefused>
    ensures { says_group_judged result ≡ judge group }
{
    let count = group.count;
    let kept = group.kept;
    if count == 1 {
        return Err(GroupRefused::One);
    }
    if count > 5 {
        return Err(GroupRefused::Many);
    }
    let n = count as usize;
    let Some(all) = reading::read_all(kept, n) else {
        return Err(GroupRefused::Unread);
    };
    let parts = all.parts;
    let number = all.number;
    judging::read(parts, n, number)
}
