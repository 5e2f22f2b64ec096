// What an accepted group says beyond its kind: its distance, its speeds.
ghost use Rattle.std.specs.Prelude.{◌≡◌, ◌≤◌, take};
ghost use Rattle.group.specs.Distance.{link_distance};
ghost use Rattle.group.specs.Speed.{target_figure};
ghost use Rattle.group.specs.Judge.{y_of, z_of, B, distance_of, signal_distance, content_of};
ghost use Rattle.group.specs.Says.{says_measured};
ghost use Rattle.group.specs.Inside.{says_sought};

use crate::{Content, NoDistance, parts};
use group_rows::{Kind, Placed};

// The figure Y of a balise that was looked for, 0 if there is none.
fn y_sought(b: Option<Placed>) -> u8
    ensures { result ≡ y_of (says_sought b) }
{
    b.map_or(0, |placed| group_rows::y_of(placed.part))
}

// The figure Z of a balise that was looked for, 0 if there is none.
fn z_sought(b: Option<Placed>) -> u8
    ensures { result ≡ z_of (says_sought b) }
{
    b.map_or(0, |placed| group_rows::z_of(placed.part))
}

// The distance from BY, BZ and the 14 (C), if there is one.
fn link_distance(by: u8, bz: u8, c: Option<Placed>) -> Result<u32, NoDistance>
    ensures { says_measured result ≡ link_distance by bz (says_sought c) }
{
    match c {
        Some(placed) => {
            if bz == 0 {
                crate::distance(by, group_rows::y_of(placed.part))
            } else {
                Err(NoDistance)
            }
        }
        None => crate::distance(by, bz),
    }
}

// The distance of a present signal or a present warning board.
fn distance_of(p: [Placed; 5], n: usize) -> Result<u32, NoDistance>
    requires { n ≤ 5 }
    ensures { says_measured result ≡ distance_of (take n p) }
{
    let b = parts::first_of(p, n, 9);
    let c = parts::first_of(p, n, 14);
    link_distance(y_sought(b), z_sought(b), c)
}

// The target figure, with the prefix rule.
fn target_figure(ay: u8, az: u8, py: u8, pz: u8) -> u8
    ensures { result ≡ target_figure ay az py pz }
{
    if (7 <= py) & (py <= 14) & (pz != 0) & (az == 1) {
        match ay {
            1..=12 => 0,
            14 => 0,
            _ => az,
        }
    } else {
        az
    }
}

// The distance of a present signal with this B, which a preset point with such a target has not.
fn signal_distance(az: u8, b: Option<Placed>, p: [Placed; 5], n: usize) -> Result<u32, NoDistance>
    requires { (n ≤ 5) × (says_sought b ≡ B (take n p)) }
    ensures { says_measured result ≡ signal_distance az (take n p) }
{
    let by = y_sought(b);
    let bz = z_sought(b);
    if (by == 14) & crate::no_increase(az) {
        return Err(NoDistance);
    }
    let c = parts::first_of(p, n, 14);
    link_distance(by, bz, c)
}

// What a present signal says.
fn of_signal(ay: u8, az: u8, p: [Placed; 5], n: usize) -> Result<Content, NoDistance>
    requires { n ≤ 5 }
    ensures { says_measured result ≡ content_of Kind.Signal 0 ay az (take n p) }
{
    let b = parts::first_of(p, n, 9);
    let distance = signal_distance(az, b, p, n)?;
    let prefix = parts::first_of(p, n, 8);
    let figure = target_figure(ay, az, y_sought(prefix), z_sought(prefix));
    Ok(Content::Signal {
        distance,
        preset: y_sought(b) == 14,
        main: crate::speed(ay),
        target: crate::speed(figure),
    })
}

// What a present warning board says.
fn of_warning(ay: u8, az: u8, p: [Placed; 5], n: usize) -> Result<Content, NoDistance>
    requires { n ≤ 5 }
    ensures { says_measured result ≡ content_of Kind.Warning 0 ay az (take n p) }
{
    let distance = distance_of(p, n)?;
    Ok(Content::Warning { distance })
}

// What a present group says beyond its kind, or that its distance is not allowed; speed is the
// route board's.
pub fn of_present(
    kind: Kind,
    speed: u16,
    ay: u8,
    az: u8,
    p: [Placed; 5],
    n: usize,
) -> Result<Content, NoDistance>
    requires { n ≤ 5 }
    ensures { says_measured result ≡ content_of kind speed ay az (take n p) }
{
    match kind {
        Kind::Signal => of_signal(ay, az, p, n),
        Kind::Warning => of_warning(ay, az, p, n),
        Kind::Annulled => Ok(Content::Nothing),
        Kind::Line => Ok(Content::Nothing),
        Kind::Route => Ok(Content::Route(speed)),
    }
}
