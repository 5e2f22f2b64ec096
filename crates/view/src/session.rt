// A session: where the viewer stands is shown at the start and after each command.
ghost use Rattle.std.specs.Prelude.{◌≡◌, ◌≤◌, length};

use crate::going::{forth, to_number, to_place};
use crate::memory::{is_quit, keep_word, meant, remembered};
use crate::out::Note;
use crate::{input, out, screen};
use console::System;
use settings::Store;
use viewer::{Moved, NoStep, Standing};
use viewer_text::Command;

// What a command comes to: where the viewer then stands, and what is noted.
#[derive(Clone, Copy)]
struct CameTo {
    stand: Standing,
    note: Note,
}

// What is asked for, and how many letters the last word then has.
#[derive(Clone, Copy)]
struct Order {
    command: Command,
    letters: usize,
}

// Why a move ended: the refusal of the next step, if it would be refused. An opened viewer's
// settings are good, so 22 or 23.
fn noted(ending: Result<(), NoStep>) -> Note {
    match ending {
        Ok(()) => Note::Nothing,
        Err(NoStep::NothingKept) => Note::Refused(22),
        Err(NoStep::AtEnd) => Note::Refused(23),
        Err(NoStep::Settings(_)) => Note::Nothing,
    }
}

// Where a move ended, and why.
fn moved_to(moved: Moved) -> CameTo {
    let stand = moved.stand;
    let ending = moved.ending;
    let note = noted(ending);
    CameTo { stand, note }
}

// The viewer where it stands, and the list of commands.
fn help(stand: Standing) -> CameTo {
    CameTo {
        stand,
        note: Note::Help,
    }
}

// Forward to just after the next record that gives a line with the word; where there is none the
// viewer stays. Without a word, the list of commands.
fn find(rt: &impl System, trace: &[u8], stand: Standing, word: &[u8], on_screen: bool) -> CameTo {
    if word.len() == 0 {
        return help(stand);
    }
    let ride = stand.ride;
    let store = stand.settings;
    let sought = viewer_text::seek(trace, stand.number, ride, store, word);
    match sought {
        Some(times) => moved_to(forth(rt, trace, stand, times, on_screen)),
        None => CameTo {
            stand,
            note: Note::NoLine,
        },
    }
}

// One command but `q`, with the last word that was asked for.
fn obey(
    rt: &impl System,
    trace: &[u8],
    stand: Standing,
    command: Command,
    word: &[u8],
    on_screen: bool,
) -> CameTo {
    match command {
        Command::Forward(times) => moved_to(forth(rt, trace, stand, times as usize, on_screen)),
        Command::Back(times) => moved_to(viewer::backs_at(stand, times as usize)),
        Command::Go(before) => moved_to(to_number(rt, trace, stand, before as usize, on_screen)),
        Command::Place(place) => moved_to(to_place(rt, trace, stand, place, on_screen)),
        Command::Find { from: _, to: _ } => find(rt, trace, stand, word, on_screen),
        Command::Quit => help(stand),
        Command::Again => help(stand),
        Command::Unknown => help(stand),
    }
}

// Where the viewer stands and what is noted, if it can be written: on a screen in place of what was
// shown before, and the note below.
fn show(
    rt: &impl System,
    trace: &[u8],
    stand: Standing,
    note: Note,
    word: &[u8],
    on_screen: bool,
) -> bool {
    if on_screen {
        let is_written = screen::show(rt, trace, stand);
        out::tell(rt, note, word);
        return is_written;
    }
    out::tell(rt, note, word);
    out::show(rt, trace, stand)
}

// Where the viewer stands at the start and what there is to say of it, if it can be written; on a
// screen the list of commands too.
fn begin(rt: &impl System, trace: &[u8], stand: Standing, begun: Note, on_screen: bool) -> bool {
    let is_written = show(rt, trace, stand, begun, b"", on_screen);
    if on_screen {
        out::tell(rt, Note::Help, b"");
    }
    is_written
}

// What a line asks for; one that is too long is no command.
fn asked(line: &[u8], is_long: bool) -> Command {
    if is_long {
        return Command::Unknown;
    }
    viewer_text::read(line)
}

// The next command, which the prompt asks for; where the input has ended, `q`. The word that it
// names, if it names one, stands then at the start of `word`; the one before had so many letters.
fn ask(rt: &impl System, last: Command, word: &mut [u8], letters: usize) -> Order
    requires { letters ≤ length word.old }
    ensures { result.letters ≤ length word.old }
{
    out::prompt(rt);
    let mut line = [0u8; 256];
    let got = input::next(rt, &mut line);
    let count = got.count;
    if got.is_end {
        out::unprompt(rt);
        return Order {
            command: Command::Quit,
            letters,
        };
    }
    let command = meant(asked(&line[..count], got.is_long), last);
    Order {
        command,
        letters: keep_word(command, &line, word, letters),
    }
}

// The commands up to `q`, the end of the input, or where nothing can be written any more. It takes
// no more turns than no run uses up.
fn obey_all(rt: &impl System, trace: &[u8], first: Standing, on_screen: bool) {
    let mut stand = first;
    let mut last = Command::Unknown;
    let mut word = [0u8; 256];
    let mut letters: usize = 0;
    for _ in 0..u64::MAX {
        let order = ask(rt, last, &mut word, letters);
        let command = order.command;
        letters = order.letters;
        if is_quit(command) {
            return;
        }
        last = remembered(command, last);
        let came = obey(rt, trace, stand, command, &word[..letters], on_screen);
        let note = came.note;
        stand = came.stand;
        if !show(rt, trace, stand, note, &word[..letters], on_screen) {
            return;
        }
    }
}

// A viewer of the trace under these settings, and what there is to say of its start.
pub fn hold(rt: &impl System, store: Store, trace: &[u8], begun: Note) {
    let opened = viewer::start_at(store, trace);
    let stand = opened.stand;
    let how = opened.begun;
    let Ok(()) = how else {
        console::refuse_trace(rt, b"view");
        return;
    };
    let on_screen = rt.is_output_terminal();
    if begin(rt, trace, stand, begun, on_screen) {
        obey_all(rt, trace, stand, on_screen);
    }
}
