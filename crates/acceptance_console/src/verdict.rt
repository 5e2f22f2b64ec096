// What is said at the end of a ride that was compared with a plan.
use crate::blocks::Compared;
use console::{CallEnded, System};

// The sum and what a depot signs. A ride that did not pass is told.
pub fn put_verdict(rt: &impl System, program: &[u8], compared: Compared) -> bool {
    let going = compared.going;
    let run = going.run;
    let troubles = going.troubles;
    let sums = acceptance::sum_up(run);
    let mut text = [0u8; 384];
    let next = acceptance_text::put_sum(sums, &mut text, 0);
    let count = acceptance_text::put_last(sums, troubles.faults, troubles.refused, &mut text, next);
    if !console::put(rt, program, &text, count) {
        return false;
    }
    if !acceptance_text::is_passed(sums) {
        console::tell(rt, CallEnded::Refused);
    }
    true
}
