// A group as figures.
ghost use Rattle.std.specs.Prelude.{◌≡◌, ◌-◌, ◌%◌, ◌<◌, get_or};
ghost use Rattle.state_bytes.specs.Figures.{figure_at_meant};
ghost use Rattle.ride_bytes.specs.Things.{heard_figure, heard_of};
ghost use Rattle.ride_bytes.specs.Rides.{group_figures, balise_of, group_of};

use group::{Balise, Group, Heard};
use state_bytes::{figure_at, low8, low32};

// A balise's place as a figure.
fn place_figure(balise: Balise) -> u64
    ensures { (result ≡ balise.place) × (result % 4294967296 ≡ result) }
{
    balise.place as u64
}

// What was heard at a balise as a figure.
fn heard_figure(balise: Balise) -> u64
    ensures { (result ≡ heard_figure balise.heard) × (heard_of result ≡ balise.heard) }
{
    let heard = balise.heard;
    match heard {
        Heard::Words(x, y, z) => x as u64 * 65536 + y as u64 * 256 + z as u64,
        Heard::Marker => 16777216,
        Heard::Unreadable => u64::MAX,
    }
}

// The figures of a group of these balises, this count and this last place.
pub fn figures(kept: [Balise; 5], count: u8, last: u32) -> [u64; 12]
    ensures value { result ≡ group_figures (record { kept = kept; count = count; last = last }) }
    ensures i_value { group_of (λ i. get_or result (i - 6) 0) ≡ record { kept = kept; count = count; last = last } }
{
    [
        count as u64,
        last as u64,
        place_figure(kept[0]),
        place_figure(kept[1]),
        place_figure(kept[2]),
        place_figure(kept[3]),
        place_figure(kept[4]),
        heard_figure(kept[0]),
        heard_figure(kept[1]),
        heard_figure(kept[2]),
        heard_figure(kept[3]),
        heard_figure(kept[4]),
    ]
}

// What was heard, of a figure.
fn heard_of(figure: u64) -> Heard
    ensures { result ≡ heard_of figure }
{
    if figure < 16777216 {
        return Heard::Words(
            (figure / 65536) as u8,
            (figure / 256 % 256) as u8,
            low8(figure),
        );
    }
    if figure == 16777216 {
        return Heard::Marker;
    }
    Heard::Unreadable
}

// Kept balise i of the group in some bytes.
fn balise_at(bytes: &[u8; 144], i: usize) -> Balise
    requires { i < 5 }
    ensures { result ≡ balise_of (figure_at_meant bytes.now) i }
{
    Balise {
        place: low32(figure_at(bytes, 8 + i)),
        heard: heard_of(figure_at(bytes, 13 + i)),
    }
}

// The group in some bytes.
pub fn read(bytes: &[u8; 144]) -> Group
    ensures { result ≡ group_of (figure_at_meant bytes.now) }
{
    Group {
        kept: [
            balise_at(bytes, 0),
            balise_at(bytes, 1),
            balise_at(bytes, 2),
            balise_at(bytes, 3),
            balise_at(bytes, 4),
        ],
        count: low8(figure_at(bytes, 6)),
        last: low32(figure_at(bytes, 7)),
    }
}
