// Rides: begun, listed record by record, ended, and what is known on the way.
ghost use Rattle.std.specs.Prelude.{◌≡◌, pos};
ghost use Rattle.text.specs.Put.{put};
ghost use Rattle.ride.specs.State.{fresh_ride};
ghost use Rattle.ride_text.specs.Told.{end_text};
ghost use Rattle.ride_bytes.specs.Rides.{known_figures, ride_bytes, ride_in};
ghost use Rattle.abi.specs.Face.{returned, left, itself};
ghost use Rattle.abi.specs.Rides.{style_of, listed, listed_number, listed_put, ride_left, ending};

// 0, with a fresh ride in `state`.
#[unsafe(no_mangle)]
pub extern "C" fn atc2_ride_begin(state: &mut [u8; 144]) -> i32
    ensures value { result ≡ pos 0 }
    ensures state_after { state.new ≡ ride_bytes fresh_ride }
    ensures state_after_2 { ride_in state.new ≡ fresh_ride }
{
    abi::rides::atc2_ride_begin(state)
}

// 0, with the lines of as many records as surely have room in `text`, how many records and bytes in
// `out`, and the ride after them in `state`; the store's own refusal, or -16.
#[unsafe(no_mangle)]
pub extern "C" fn atc2_ride_list(
    state: &mut [u8; 144],
    store: &[u8; 1032],
    trace: &[u8],
    number: u64,
    style: u8,
    text: &mut [u8],
    out: &mut [u64; 2],
) -> i32
    ensures value { result ≡ returned listed_number (listed state.old store.now trace.now number style text.old).answer }
    ensures state_after { state.new ≡ ride_left (listed state.old store.now trace.now number style text.old) state.old }
    ensures state_after_2 { ride_in state.new ≡ (listed state.old store.now trace.now number style text.old).ride }
    ensures text_after { text.new ≡ (listed state.old store.now trace.now number style text.old).out }
    ensures out_after { out.new ≡ left listed_put (listed state.old store.now trace.now number style text.old).answer out.old }
{
    abi::rides::atc2_ride_list(state, store, trace, number, style, text, out)
}

// The bytes of the line that the end of the ride gives, with that line at the start of `text`: 0 if
// no group is open; -21 if it has no room.
#[unsafe(no_mangle)]
pub extern "C" fn atc2_ride_end(state: &[u8; 144], style: u8, text: &mut [u8]) -> i32
    ensures value { result ≡ returned itself (ending (style_of style) (ride_in state.now) text.old) }
    ensures text_after { text.new ≡ (put (end_text (style_of style) (ride_in state.now)) text.old 0).buffer }
{
    abi::rides::atc2_ride_end(state, style, text)
}

// 0, with the odometer, linking's distance and place, main speed, target and number in `out`; 2^64
// - 1 where nothing is set.
#[unsafe(no_mangle)]
pub extern "C" fn atc2_ride_known(state: &[u8; 144], out: &mut [u64; 6]) -> i32
    ensures value { result ≡ pos 0 }
    ensures out_after { out.new ≡ known_figures (ride_in state.now) }
{
    abi::rides::atc2_ride_known(state, out)
}
