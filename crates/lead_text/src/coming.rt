// The next record of a lead: of a lent piece, or at the lead's end.
ghost use Rattle.std.specs.Prelude.{◌≡◌};
ghost use Rattle.recording.specs.Asking.{go_on, finish, of_ending};
ghost use Rattle.recording.specs.Says.{says_taken};
ghost use Rattle.lead_text.specs.List.{place_of};
ghost use Rattle.lead_text.specs.Inside.{of_piece, coming};

use crate::Underway;
use recording::Taken;
use settings::Store;

// The next record of a piece, from where the ride stands; where the piece is used, the next one is
// gone over from its first frame on.
fn of_piece(here: Underway, store: Store, frames: &[u8]) -> Taken
    ensures { says_taken result ≡ of_piece (go_on store frames.now here.tape here.frame here.bit) }
{
    let tape = here.tape;
    let taken = recording::go_on(tape, store, frames, here.frame, here.bit);
    let next = taken.tape;
    match taken.came {
        Some(_) => taken,
        None => Taken {
            tape: next,
            frame: 0,
            bit: 0,
            came: None,
        },
    }
}

// The next record at the lead's end; the place in the piece stays.
fn of_end(here: Underway) -> Taken
    ensures { says_taken result ≡ of_ending here.frame here.bit (finish here.tape) }
{
    let tape = here.tape;
    let ended = recording::end(tape);
    let next = ended.tape;
    let came = ended.came;
    Taken {
        tape: next,
        frame: here.frame,
        bit: here.bit,
        came,
    }
}

// The next record, where the lead ends or of the piece.
pub fn next_record(ends: bool, here: Underway, store: Store, frames: &[u8]) -> Taken
    ensures { says_taken result ≡ coming ends store frames.now (place_of here) }
{
    if ends {
        return of_end(here);
    }
    of_piece(here, store, frames)
}
