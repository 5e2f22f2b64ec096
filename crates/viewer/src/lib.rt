// A viewer that goes forward and back over the records of a lent trace.
// Promises: after any calls its state is that of a fresh ride over the records before its number; a
// refused call changes nothing.
// Specification: specs/Stand.antt (where it stands, and the last 256 states), Viewing.antt (the
// calls), Going.antt (many at once), Says.antt (the answers); what is promised: Laws.antt.
// Laws: after any calls number, kept count and state are those of a plain definition with a history
// as a list (`Viewing` of specs/Laws.antt); 22 and 23 leave the viewer (`Refusing`); many at once
// are so many single calls, none of them refused (`ManyAtOnce`).
#![tactic(auto)]

ghost use Rattle.std.specs.Prelude.{◌≡◌};
ghost use Rattle.viewer.specs.Viewing.{start, forward, back};
ghost use Rattle.viewer.specs.Says.{holding, over, says_started, says_forwarded, says_backed};

mod going;
mod moving;
mod opening;
mod placing;

pub use going::{backs_at, forwards_at};
use group::Group;
pub use moving::{back_at, forward_at};
pub use opening::start_at;
pub use placing::times_to;
use ride::{Lines, Ride, TraceRefused};
use settings::{Bad, Store};

// Where a viewer stands: how many records lie before it, how many states are kept, the state there,
// the last states (that before record n, the first with 0, at n % 256), and the settings.
#[derive(Clone, Copy)]
pub struct Standing {
    pub number: usize,
    pub kept: usize,
    pub ride: Ride,
    pub last: [Ride; 256],
    pub settings: Store,
}

// Why no step is made: nothing is kept (22), the viewer is at the end (23), or the settings are
// refused, which no opening lets in (their number).
#[derive(Clone, Copy, PartialEq, Eq)]
pub enum NoStep {
    NothingKept,
    AtEnd,
    Settings(Bad),
}

// What opening answers over a lent trace.
#[derive(Clone, Copy)]
pub struct Opened {
    pub stand: Standing,
    pub begun: Result<(), TraceRefused>,
}

// What going forward over a lent trace answers: where the viewer stands, the lines that the record
// gave, and the group that closed.
#[derive(Clone, Copy)]
pub struct Went {
    pub stand: Standing,
    pub lines: Lines,
    pub closed: Group,
    pub how: Result<(), NoStep>,
}

// What going back answers.
#[derive(Clone, Copy)]
pub struct Came {
    pub stand: Standing,
    pub how: Result<(), NoStep>,
}

// What going many times answers: where the viewer stands, how many steps were made, none of which
// was refused, and that all were that were asked for, or why no further one.
#[derive(Clone, Copy)]
pub struct Moved {
    pub stand: Standing,
    pub steps: usize,
    pub ending: Result<(), NoStep>,
}

// A viewer: the lent trace, and where it stands.
#[derive(Clone, Copy)]
pub struct Viewer<'a> {
    pub trace: &'a [u8],
    pub stand: Standing,
}

// A viewer that was opened. A refused one holds an empty trace.
#[derive(Clone, Copy)]
pub struct Started<'a> {
    pub viewer: Viewer<'a>,
    pub begun: Result<(), TraceRefused>,
}

// A viewer after a forward: the lines that the record gave, and the group that closed.
#[derive(Clone, Copy)]
pub struct Forwarded<'a> {
    pub viewer: Viewer<'a>,
    pub lines: Lines,
    pub closed: Group,
    pub how: Result<(), NoStep>,
}

// A viewer after a back.
#[derive(Clone, Copy)]
pub struct Backed<'a> {
    pub viewer: Viewer<'a>,
    pub how: Result<(), NoStep>,
}

// A viewer at the first record of the very trace that is lent, with a fresh ride and nothing kept;
// or the settings' own refusal, then 16, and a viewer of an empty trace.
pub fn start<'a>(store: Store, trace: &'a [u8]) -> Started<'a>
    ensures { says_started result ≡ holding trace.entry (start store trace.now) }
{
    let opened = start_at(store, trace);
    let seen = opening::seen(store, trace);
    let viewer = Viewer {
        trace: seen,
        stand: opened.stand,
    };
    Started {
        viewer,
        begun: opened.begun,
    }
}

// One record forward: its lines, the group that closed, the number and the kept count (up to 256)
// one higher, also for a refused record; or 23 exactly at the end, and the viewer as it was.
pub fn forward<'a>(viewer: Viewer<'a>) -> Forwarded<'a>
    ensures { says_forwarded result ≡ over viewer.entry.trace (forward viewer.entry.trace.now viewer.entry.stand) }
{
    let went = forward_at(viewer.trace, viewer.stand);
    let next = Viewer {
        trace: viewer.trace,
        stand: went.stand,
    };
    Forwarded {
        viewer: next,
        lines: went.lines,
        closed: went.closed,
        how: went.how,
    }
}

// One record back, to the state kept last, with number and kept count one lower; or 22 exactly if
// nothing is kept, and the viewer as it was.
pub fn back<'a>(viewer: Viewer<'a>) -> Backed<'a>
    ensures { says_backed result ≡ over viewer.entry.trace (back viewer.entry.stand) }
{
    let came = back_at(viewer.stand);
    let next = Viewer {
        trace: viewer.trace,
        stand: came.stand,
    };
    Backed {
        viewer: next,
        how: came.how,
    }
}
