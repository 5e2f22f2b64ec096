// Rides: begun, listed record by record, ended, and what is known on the way.
ghost use Rattle.std.specs.Prelude.{◌≡◌, pos};
ghost use Rattle.text.specs.Put.{put};
ghost use Rattle.ride.specs.State.{fresh_ride};
ghost use Rattle.ride_text.specs.Told.{end_text};
ghost use Rattle.ride_bytes.specs.Rides.{known_figures, ride_bytes, ride_in};
ghost use Rattle.abi.specs.Face.{returned, left, itself};
ghost use Rattle.abi.specs.Rides.{style_of, listed, listed_number, listed_put, ride_left, ending};

use crate::refusal::of_settings;
use ride::TraceRefused;

// Whether a style is with reasons.
fn with_reasons(style: u8) -> bool
    ensures { result ≡ style_of style }
{
    if style == 0 {
        return ride_text::PLAIN;
    }
    ride_text::REASONS
}

// 0, with a fresh ride in `state`.
pub fn atc2_ride_begin(state: &mut [u8; 144]) -> i32
    ensures value { result ≡ pos 0 }
    ensures state_after { state.new ≡ ride_bytes fresh_ride }
    ensures state_after_2 { ride_in state.new ≡ fresh_ride }
{
    let bytes = ride_bytes::ride_bytes(ride::fresh());
    *state = bytes;
    0
}

// 0, with the lines of as many records as surely have room in `text`, how many records and bytes in
// `out`, and the ride after them in `state`; the store's own refusal, or -16.
pub fn atc2_ride_list(
    state: &mut [u8; 144],
    store: &[u8; 1032],
    trace: &[u8],
    number: u64,
    style: u8,
    text: &mut [u8],
    out: &mut [u64; 2],
) -> i32
    ensures value { result ≡ returned listed_number (listed state.old store.now trace.now number style text.old).answer }
    ensures state_after { state.new ≡ ride_left (listed state.old store.now trace.now number style text.old) state.old }
    ensures state_after_2 { ride_in state.new ≡ (listed state.old store.now trace.now number style text.old).ride }
    ensures text_after { text.new ≡ (listed state.old store.now trace.now number style text.old).out }
    ensures out_after { out.new ≡ left listed_put (listed state.old store.now trace.now number style text.old).answer out.old }
{
    let lent = *state;
    let held = ride_bytes::ride_in(&lent);
    let versions = state_bytes::store_in(store);
    let reasons = with_reasons(style);
    let listed = ride_text::list(reasons, held, versions, number, trace, text);
    let after = listed.ride;
    let done = listed.done;
    match done {
        Ok(took) => {
            let made = ride_bytes::ride_bytes(after);
            *state = made;
            *out = [took.records as u64, took.bytes as u64];
            0
        }
        Err(TraceRefused::Settings(bad)) => of_settings(bad),
        Err(TraceRefused::Length) => -16,
    }
}

// The bytes of the line that the end of the ride gives, with that line at the start of `text`: 0 if
// no group is open; -21 if it has no room.
pub fn atc2_ride_end(state: &[u8; 144], style: u8, text: &mut [u8]) -> i32
    ensures value { result ≡ returned itself (ending (style_of style) (ride_in state.now) text.old) }
    ensures text_after { text.new ≡ (put (end_text (style_of style) (ride_in state.now)) text.old 0).buffer }
{
    let reasons = with_reasons(style);
    let held = ride_bytes::ride_in(state);
    let mut space = [0u8; 160];
    let needed = ride_text::put_end(reasons, held, &mut space, 0);
    if needed > text.len() {
        return -21;
    }
    ride_text::put_end(reasons, held, text, 0) as i32
}

// 0, with the odometer, linking's distance and place, main speed, target and number in `out`; 2^64
// - 1 where nothing is set.
pub fn atc2_ride_known(state: &[u8; 144], out: &mut [u64; 6]) -> i32
    ensures value { result ≡ pos 0 }
    ensures out_after { out.new ≡ known_figures (ride_in state.now) }
{
    let held = ride_bytes::ride_in(state);
    let figures = ride_bytes::known_figures(held);
    *out = figures;
    0
}
