// The whole page of a ride.
use crate::{page, strips};
use acceptance_console::Compared;
use console::System;
use ride_drawing::Plan;
use ride_text::REASONS;
use settings::Store;

// The sum and what a depot signs.
fn put_verdict(rt: &impl System, compared: Compared) -> bool {
    if !page::put_lines(rt) {
        return false;
    }
    if !acceptance_console::put_verdict(rt, b"draw", compared) {
        return false;
    }
    page::put_lines_end(rt)
}

// The page of a ride: its head, the strips, the verdict where there is a plan, the listing, its
// foot. The cards are gone over twice here.
pub fn draw_ride(
    rt: &impl System,
    compared: Compared,
    is_planned: bool,
    store: Store,
    first: usize,
    lengths: &[u64],
    block: &mut [u8],
) {
    let going = compared.going;
    let run = going.run;
    let plan = Plan {
        run,
        asked: is_planned,
    };
    if !page::put_head(rt, is_planned) {
        return;
    }
    if !strips::draw_cards(rt, plan, store, first, lengths, block) {
        return;
    }
    if is_planned {
        if !put_verdict(rt, compared) {
            return;
        }
    }
    if page::put_lines(rt) {
        ride_console::list_all(rt, b"draw", REASONS, store, first, lengths, block);
        page::put_foot(rt);
    }
}

// The page of cards of bad length: the one line alone.
pub fn draw_refused(rt: &impl System) {
    if page::put_head(rt, false) {
        if page::put_no_strip(rt) {
            console::refuse_trace(rt, b"draw");
            page::put_foot(rt);
        }
    }
}
