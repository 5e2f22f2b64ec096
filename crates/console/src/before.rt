// What the arguments ask for before the cards, for the programs that ride: `-s SETTINGS`, from one
// argument on.
ghost use Rattle.std.specs.Prelude.{◌≡◌, length, IfOk};
ghost use Rattle.console.specs.Asked.{cards_from, Ridden};

use crate::arguments::{CallWrong, Said, argument_count, is_option};
use crate::lengths::open_card;
use crate::reading::fill;
use crate::saying::{begin_line, cannot_write};
use crate::status::{CallEnded, tell};
use crate::streams::{Stream, write};
use crate::system::{Source, System};
use crate::telling::{cannot_open, cannot_read};
use settings::Store;
use settings_text::Condition;

// The gap of a program that is given no settings, in dm.
const GAP: u32 = 40;

// Which store is ridden under: that of the gap alone, or that of the settings that were named.
#[derive(Clone, Copy, PartialEq, Eq)]
pub enum StoreOf {
    Plain,
    Settings,
}

// What the arguments ask for: the store, whose it is, and the first argument after the settings.
#[derive(Clone, Copy)]
pub struct AskedFor {
    pub store: Store,
    pub first: usize,
    pub of: StoreOf,
}

// Room for the longest text of settings, and one byte more, which tells a longer one.
fn room() -> [u8; 1048577]
    ensures { 1048577 ≡ length result }
{
    [0; 1048577]
}

// Says what is wrong with the settings. That they are too long is no result.
fn tell_of(rt: &impl System, program: &[u8], aside: bool, line: u32, how: Condition) {
    let mut text = [0u8; 128];
    let count = settings_text::put_told(line, how, &mut text, 0);
    tell(rt, ended(how));
    if aside | is_too_long(how) {
        begin_line(rt, program);
        write(rt, Stream::Error, &text, count);
        return;
    }
    if !write(rt, Stream::Output, &text, count) {
        cannot_write(rt, program);
    }
}

// How a call ends by bad settings: refused by a number, or their text cannot be read.
fn ended(how: Condition) -> CallEnded {
    match how {
        Condition::Refused(_) => CallEnded::Refused,
        Condition::Fine => CallEnded::Said,
        Condition::TooLong => CallEnded::Said,
        Condition::Unreadable => CallEnded::Said,
        Condition::FirstPlace => CallEnded::Said,
    }
}

// Whether a text is longer than is read.
fn is_too_long(how: Condition) -> bool {
    match how {
        Condition::TooLong => true,
        Condition::Fine => false,
        Condition::Unreadable => false,
        Condition::FirstPlace => false,
        Condition::Refused(_) => false,
    }
}

// What a text of settings comes to; where it is bad that is said.
fn judged(
    rt: &impl System,
    program: &[u8],
    aside: bool,
    at: u8,
    text: &[u8],
) -> Result<AskedFor, Said>
    ensures { IfOk result (λ asked. (asked.first ≡ cards_from at asked.of) × Ridden asked.of asked.store) }
{
    let sheet = settings_text::read(text);
    let store = sheet.store;
    let line = sheet.line;
    let how = sheet.how;
    if settings_text::is_fine(how) {
        return Ok(AskedFor {
            store,
            first: at as usize + 2,
            of: StoreOf::Settings,
        });
    }
    tell_of(rt, program, aside, line, how);
    Err(Said)
}

// The settings of the open file, or what is said of it.
fn from_file(
    rt: &impl System,
    program: &[u8],
    aside: bool,
    at: u8,
    file: &mut Source,
) -> Result<AskedFor, Said>
    ensures { IfOk result (λ asked. (asked.first ≡ cards_from at asked.of) × Ridden asked.of asked.store) }
{
    let mut text = room();
    let got = fill(rt, file, &mut text);
    let count = got.count;
    if got.failed {
        cannot_read(rt, program, at as usize + 1);
        return Err(Said);
    }
    judged(rt, program, aside, at, &text[..count])
}

// What the arguments ask for before the cards, from this one on, where another option stands before
// them.
pub fn options_at(
    rt: &impl System,
    program: &[u8],
    aside: bool,
    at: u8,
) -> Result<AskedFor, CallWrong>
    ensures { IfOk result (λ asked. (asked.first ≡ cards_from at asked.of) × Ridden asked.of asked.store) }
{
    if !is_option(rt, at as usize, b's') {
        let begun = settings::begin(GAP, 0x00, 0x7F);
        let store = begun.store;
        return Ok(AskedFor {
            store,
            first: at as usize,
            of: StoreOf::Plain,
        });
    }
    let file = at as usize + 1;
    if argument_count(rt) <= file {
        return Err(CallWrong::Usage);
    }
    let Some(mut opened) = open_card(rt, file) else {
        cannot_open(rt, program, file);
        return Err(CallWrong::Said);
    };
    Ok(from_file(rt, program, aside, at, &mut opened)?)
}

// What the arguments ask for before the cards.
pub fn options(rt: &impl System, program: &[u8], aside: bool) -> Result<AskedFor, CallWrong>
    ensures { IfOk result (λ asked. (asked.first ≡ cards_from 1 asked.of) × Ridden asked.of asked.store) }
{
    options_at(rt, program, aside, 1)
}
