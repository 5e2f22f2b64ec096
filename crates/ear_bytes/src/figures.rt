// The figures of a hearing.
ghost use Rattle.std.specs.Prelude.{◌≡◌};
ghost use Rattle.ear_bytes.specs.Ears.{telegram_figures, places_figures, as_figure, stand_figures, last_kind, last_place, figures_of};
ghost use Rattle.ear_bytes.specs.Sizes.{TelegramFits, PlacesFit, StandFits, LastFits, HearingFits};

use crate::Hearing;
use antenna::{Places, Stand};
use telegram::Telegram;

// Those of a telegram.
fn of_telegram(telegram: Telegram) -> [u64; 4]
    ensures value { result ≡ telegram_figures telegram }
    ensures telegram_fits { TelegramFits telegram }
{
    match telegram {
        Telegram::Figures(x, y, z) => [0, x as u64, y as u64, z as u64],
        Telegram::Number(m) => [1, m as u64, 0, 0],
    }
}

// Those of a contact's places.
fn of_places(places: Places) -> [u64; 10]
    ensures value { result ≡ places_figures places }
    ensures places_fit { PlacesFit places }
{
    match places {
        Places::NoPlace => [0, 0, 0, 0, 0, 0, 0, 0, 0, 0],
        Places::Alike {
            telegram,
            x,
            y,
            z,
            first,
            count,
        } => {
            let m = of_telegram(telegram);
            [
                1,
                x as u64,
                y as u64,
                z as u64,
                first as u64,
                count as u64,
                m[0],
                m[1],
                m[2],
                m[3],
            ]
        }
        Places::Differ => [2, 0, 0, 0, 0, 0, 0, 0, 0, 0],
    }
}

// True is 1, false 0.
fn as_figure(holds: bool) -> u64
    ensures { result ≡ as_figure holds }
{
    if holds { 1 } else { 0 }
}

// Those of where an ear stands.
fn of_stand(stand: Stand) -> [u64; 17]
    ensures value { result ≡ stand_figures stand }
    ensures stand_fits { StandFits stand }
{
    match stand {
        Stand::Outside => [0, 0, 0, 0, 0, 0, 0, 0, 0, 0, 0, 0, 0, 0, 0, 0, 0],
        Stand::Inside(sound) => {
            let places = sound.places;
            let p = of_places(places);
            let plain = as_figure(sound.plain);
            [
                1,
                sound.s as u64,
                sound.t as u64,
                sound.length as u64,
                sound.forty,
                sound.ones as u64,
                plain,
                p[0],
                p[1],
                p[2],
                p[3],
                p[4],
                p[5],
                p[6],
                p[7],
                p[8],
                p[9],
            ]
        }
    }
}

// Whether there is a last record, and its odometer.
fn last_kind(last: Option<u32>) -> u64
    ensures { result ≡ last_kind last }
{
    match last {
        None => 0,
        Some(_) => 1,
    }
}

fn last_place(last: Option<u32>) -> u64
    ensures value { result ≡ last_place last }
    ensures last_fits { LastFits last }
{
    match last {
        None => 0,
        Some(place) => place as u64,
    }
}

// Those of a hearing.
pub fn of_hearing(hearing: Hearing) -> [u64; 23]
    ensures value { result ≡ figures_of hearing }
    ensures hearing_fits { HearingFits hearing }
{
    let tape = hearing.tape;
    let ear = tape.ear;
    let stand = ear.stand;
    let last = tape.last;
    let f = of_stand(stand);
    let kind = last_kind(last);
    let place = last_place(last);
    [
        ear.history as u64,
        tape.odometer as u64,
        tape.opened as u64,
        hearing.bit as u64,
        kind,
        place,
        f[0],
        f[1],
        f[2],
        f[3],
        f[4],
        f[5],
        f[6],
        f[7],
        f[8],
        f[9],
        f[10],
        f[11],
        f[12],
        f[13],
        f[14],
        f[15],
        f[16],
    ]
}
