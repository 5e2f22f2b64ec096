// The hearing in some bytes: of each figure the low bits count, as many as its type has.
ghost use Rattle.std.specs.Prelude.{◌≡◌};
ghost use Rattle.ear_bytes.specs.Ears.{telegram_in, places_in, sound_in, stand_in, last_in, ear_in};

use crate::Hearing;
use antenna::{Ear, Places, Sound, Stand};
use recording::Tape;
use state_bytes::{figure_at, low8, low16, low32};
use telegram::Telegram;

fn telegram(bytes: &[u8; 184]) -> Telegram
    ensures { result ≡ telegram_in bytes.now }
{
    let x = figure_at(bytes, 20);
    if figure_at(bytes, 19) == 0 {
        let y = figure_at(bytes, 21);
        let z = figure_at(bytes, 22);
        return Telegram::Figures(low8(x), low8(y), low8(z));
    }
    Telegram::Number(low16(x))
}

fn places(bytes: &[u8; 184]) -> Places
    ensures { result ≡ places_in bytes.now }
{
    let kind = figure_at(bytes, 13);
    if kind == 0 {
        return Places::NoPlace;
    }
    if kind == 1 {
        let x = figure_at(bytes, 14);
        let y = figure_at(bytes, 15);
        let z = figure_at(bytes, 16);
        return Places::Alike {
            telegram: telegram(bytes),
            x: low8(x),
            y: low8(y),
            z: low8(z),
            first: figure_at(bytes, 17) as usize,
            count: figure_at(bytes, 18) as usize,
        };
    }
    Places::Differ
}

fn sound(bytes: &[u8; 184]) -> Sound
    ensures { result ≡ sound_in bytes.now }
{
    let s = figure_at(bytes, 7);
    let t = figure_at(bytes, 8);
    Sound {
        s: low8(s),
        t: low8(t),
        length: figure_at(bytes, 9) as usize,
        forty: figure_at(bytes, 10),
        ones: figure_at(bytes, 11) as usize,
        plain: figure_at(bytes, 12) != 0,
        places: places(bytes),
    }
}

fn stand(bytes: &[u8; 184]) -> Stand
    ensures { result ≡ stand_in bytes.now }
{
    if figure_at(bytes, 6) == 0 {
        return Stand::Outside;
    }
    Stand::Inside(sound(bytes))
}

fn last(bytes: &[u8; 184]) -> Option<u32>
    ensures { result ≡ last_in bytes.now }
{
    if figure_at(bytes, 4) == 0 {
        return None;
    }
    let place = figure_at(bytes, 5);
    Some(low32(place))
}

pub fn hearing(bytes: &[u8; 184]) -> Hearing
    ensures { result ≡ ear_in bytes.now }
{
    let history = figure_at(bytes, 0);
    let odometer = figure_at(bytes, 1);
    let opened = figure_at(bytes, 2);
    let ear = Ear {
        history: low16(history),
        stand: stand(bytes),
    };
    Hearing {
        tape: Tape {
            ear,
            odometer: low32(odometer),
            opened: low32(opened),
            last: last(bytes),
        },
        bit: figure_at(bytes, 3) as usize,
    }
}
