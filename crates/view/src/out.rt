// What is written: where the viewer stands, what is noted of a command, and the list of commands.
use console::System;
use viewer::Standing;

// What is noted beside where the viewer stands: nothing; at the start, that it is no start of the
// cards, but at this record, at this place; after a command the number of the refusal that stopped
// it, that no further line has the word, or the list of commands.
#[derive(Clone, Copy)]
pub enum Note {
    Nothing,
    From { record: u64, place: u32 },
    Refused(u8),
    NoLine,
    Help,
}

// `view: a fresh ride from record 1200 of the cards on, at 60000: here it is record 1`.
fn say_from(rt: &impl System, record: u64, place: u32) {
    console::say(rt, b"view: a fresh ride from record ");
    let _ = rt.eprint(record);
    console::say(rt, b" of the cards on, at ");
    let _ = rt.eprint(place);
    console::say(rt, b": here it is record 1\n");
}

// `refused 22: WORDS`.
fn refuse(rt: &impl System, number: u8) {
    let mut line = [0u8; 128];
    let n = refusals::put_refused(number, &mut line, 0);
    console::put(rt, b"view", &line, n);
}

// `no further line has WORD`.
fn miss(rt: &impl System, word: &[u8]) {
    let mut line = [0u8; 320];
    let n = viewer_text::put_no_line(word, &mut line, 0);
    console::put(rt, b"view", &line, n);
}

// What is noted of a command, the last word that was asked for being this one.
pub fn tell(rt: &impl System, note: Note, word: &[u8]) {
    match note {
        Note::Nothing => {}
        Note::From { record, place } => say_from(rt, record, place),
        Note::Refused(number) => refuse(rt, number),
        Note::NoLine => miss(rt, word),
        Note::Help => help(rt),
    }
}

// Where the viewer stands, and the record that comes next, into the page from `at` on, and the
// place after it.
pub fn put_stand(trace: &[u8], stand: Standing, page: &mut [u8], at: usize) -> usize {
    let ride = stand.ride;
    let count = trace.len() / 8;
    let n = viewer_text::put_state(stand.number, count, stand.kept, ride, page, at);
    viewer_text::put_next(trace, stand.number, page, n)
}

// The same to standard output, if it can be written.
pub fn show(rt: &impl System, trace: &[u8], stand: Standing) -> bool {
    let mut lines = [0u8; 512];
    let n = put_stand(trace, stand, &mut lines, 0);
    console::put(rt, b"view", &lines, n)
}

// The list of commands.
fn help(rt: &impl System) {
    let _ = rt.write_all(
        b"f [N]    forward, once or N times\nb [N]    back, once or N times\ng N      to just before record N\np PLACE  to the first record at or past that place\n/WORD    forward to the next line with that word; / alone: the last word again\nEnter    the last command again\nq        quit\n",
    );
}

// A prompt, where a person sits at a terminal.
pub fn prompt(rt: &impl System) {
    if rt.is_input_terminal() {
        console::say(rt, b"> ");
    }
}

// The end of the line that the prompt began, where the input ended after it.
pub fn unprompt(rt: &impl System) {
    if rt.is_input_terminal() {
        console::say(rt, b"\n");
    }
}
