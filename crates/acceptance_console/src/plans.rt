// The plan and the tolerance that the arguments name.
use acceptance::{Acceptance, PlanRefused};
use console::{Said, Source, System};

// The largest number that a tolerance is read as, which stands for all above it; no plan has it.
const MOST: u64 = 4294967295;

// That the plan is refused.
fn refuse(rt: &impl System, program: &[u8], number: u8) {
    let mut text = [0u8; 128];
    let count = acceptance_text::put_refused(number, &mut text, 0);
    console::refuse_by(rt, program, &text, count);
}

// Whether a plan is good; where it is refused that is said.
fn is_taken(rt: &impl System, program: &[u8], judged: Result<(), PlanRefused>) -> bool {
    match judged {
        Ok(()) => {
            return true;
        }
        Err(PlanRefused::Tolerance) => refuse(rt, program, 28),
        Err(PlanRefused::Record) => refuse(rt, program, 26),
        Err(PlanRefused::Near) => refuse(rt, program, 27),
    }
    false
}

// A run over the plan of the open file of an argument, with this tolerance. A plan has 512 bytes at
// most; a longer file shows by one byte more.
fn read(
    rt: &impl System,
    program: &[u8],
    file: usize,
    from: &mut Source,
    tolerance: u32,
) -> Result<Acceptance, Said> {
    let mut bytes = [0u8; 513];
    let got = console::fill(rt, from, &mut bytes);
    if got.failed {
        console::cannot_read(rt, program, file);
        return Err(Said);
    }
    let count = got.count;
    let planned = acceptance::plan(&bytes[..count], tolerance);
    let run = planned.plan;
    let judged = planned.judged;
    if is_taken(rt, program, judged) {
        return Ok(run);
    }
    Err(Said)
}

// A run over the plan that the argument `file` names, with the tolerance of the one after it.
pub fn plan_of(rt: &impl System, program: &[u8], file: usize) -> Result<Acceptance, Said> {
    let next = std::num::wrapping_add_usize(file, 1);
    let n = console::figure(rt, program, b"TOLERANCE", next, MOST)?;
    let Some(mut opened) = console::open_card(rt, file) else {
        console::cannot_open(rt, program, file);
        return Err(Said);
    };
    let tolerance = u32::try_from(n).unwrap_or(u32::MAX);
    read(rt, program, file, &mut opened, tolerance)
}
