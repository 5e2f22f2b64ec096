// The settings before the leads: a sync pair, or a file.
use console::{AskedFor, CallWrong, Said, StoreOf, System};

// The gap beside a plain pair, in dm.
const GAP: u32 = 40;

// The first argument after `S S*`, and the fewest words of a command line that has both.
const AFTER: usize = 3;

// Says that the pair is refused.
fn refuse(rt: &impl System, program: &[u8], aside: bool) {
    if aside {
        console::refuse(rt, program, 4);
        return;
    }
    console::refuse_here(rt, program, 4);
}

// The pair S and S* with the gap 40, or what is said of it.
fn pair(rt: &impl System, program: &[u8], aside: bool, s: u8, t: u8) -> Result<AskedFor, Said> {
    let begun = settings::begin(GAP, s, t);
    let store = begun.store;
    let verdict = begun.verdict;
    match verdict {
        Ok(()) => Ok(AskedFor {
            store,
            first: AFTER,
            of: StoreOf::Plain,
        }),
        Err(_) => {
            refuse(rt, program, aside);
            Err(Said)
        }
    }
}

// The words of a pair, from the arguments.
fn pair_named(rt: &impl System, program: &[u8], aside: bool) -> Result<AskedFor, CallWrong> {
    if console::argument_count(rt) < AFTER {
        return Err(CallWrong::Usage);
    }
    let (s, t) = console::sync_pair(rt, program, 1)?;
    Ok(pair(rt, program, aside, s, t)?)
}

// What the arguments ask for before the leads: `-s SETTINGS`, or `S S*`.
pub fn options(rt: &impl System, program: &[u8], aside: bool) -> Result<AskedFor, CallWrong> {
    let asked = console::options(rt, program, aside)?;
    let of = asked.of;
    match of {
        StoreOf::Plain => pair_named(rt, program, aside),
        StoreOf::Settings => Ok(asked),
    }
}
