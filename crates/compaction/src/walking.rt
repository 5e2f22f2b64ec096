// The records of a block, one after the other.
ghost use Rattle.std.specs.Prelude.{◌≡◌};
ghost use Rattle.words.specs.Answer.{gives};
ghost use Rattle.settings.specs.Versions.{kept};
ghost use Rattle.settings.specs.Store.{judged};
ghost use Rattle.settings.specs.At.{held_at, gap_at};
ghost use Rattle.compaction.specs.Inside.{Over};

use crate::Waiting;
use crate::copying::{eight, put_eight};
use crate::deciding::{held_for, is_dropped, treat};
use settings::{Held, Store};

// What a block comes to: what waits then, with the gap that it is treated with, and how many bytes
// of the block are settled as kept.
#[derive(Clone, Copy)]
pub struct Walked {
    pub waiting: Waiting,
    pub gap: u32,
    pub bytes: usize,
}

// The records of a block in turn, each treated with the gap in force at its own odometer. What is
// kept is written no further on than what is read. The record that waits is held in pieces: a copy
// of the whole would carry the bytes between its fields too, from record to record.
pub fn over(waiting: Waiting, store: Store, first: Held, block: &mut [u8]) -> Walked
    requires { (judged store ≡ gives kept) × (first ≡ held_at store 0) }
    ensures { Over (gap_at store) waiting block.old result.waiting result.gap result.bytes block.new }
{
    let count = block.len() / 8;
    let mut ride = waiting.ride;
    let mut bytes = waiting.bytes;
    let mut waits = waiting.waits;
    let mut held = held_for(store, first, bytes);
    let mut at: usize = 0;
    for i in 0..count {
        let next = eight(block, i * 8);
        if waits {
            let treated = treat(ride, held.gap, bytes);
            let reply = treated.reply;
            ride = treated.ride;
            if !is_dropped(ride, bytes, reply, next) {
                put_eight(bytes, block, at);
                at += 8;
            }
        }
        held = held_for(store, held, next);
        bytes = next;
        waits = true;
    }
    Walked {
        waiting: Waiting { ride, bytes, waits },
        gap: held.gap,
        bytes: at,
    }
}
