// Arguments as figures and words. One that is missing, or longer than 4,096 bytes, is none.
ghost use Rattle.std.specs.Prelude.{◌≡◌};

use crate::saying::wrong;
use crate::system::System;
use figures::NotFigure;
use std::env::FillError;

// Whether there is an argument k; 0 is the program's name.
fn is_given(rt: &impl System, k: usize) -> bool {
    let mut text = [0u8; 1];
    match rt.arg(k, &mut text) {
        Ok(_) => true,
        Err(FillError::TooLong) => true,
        Err(FillError::NotPresent) => false,
    }
}

// How many arguments there are, the program's name among them: bit by bit, from one that no command
// line has.
pub fn argument_count(rt: &impl System) -> usize {
    let mut count: usize = 0;
    for i in 0..32u32 {
        let more = (4294967295u64 >> i) / 2;
        let last = count.saturating_add(more as usize);
        if is_given(rt, last) {
            count = last.saturating_add(1);
        }
    }
    count
}

// Argument k as a number of which `most` is the largest asked for.
pub fn number(rt: &impl System, k: usize, most: u64) -> Result<u64, NotFigure> {
    let mut text = [0u8; 4096];
    let Ok(length) = rt.arg(k, &mut text) else {
        return Err(NotFigure::Odd);
    };
    figures::decimal(&text[..length], most)
}

// That an argument is none of what was asked for, which was said.
#[derive(Clone, Copy, PartialEq, Eq)]
pub struct Said;

// Why the arguments are no call: the program says its usage; or one of them is wrong, which was
// said.
#[derive(Clone, Copy, PartialEq, Eq)]
pub enum CallWrong {
    Usage,
    Said,
}

impl From<Said> for CallWrong {
    ghost use Rattle.console.specs.declared.arguments.CallWrong.{CallWrong};

    ghost from_gives = { λ _ e. e ≡ CallWrong.Said };

    fn from(_said: Said) -> CallWrong {
        CallWrong::Said
    }
}

// Argument k, of this name, as a number up to `most`, which stands for all above it; where it is
// none that is said.
pub fn figure(
    rt: &impl System,
    program: &[u8],
    name: &[u8],
    k: usize,
    most: u64,
) -> Result<u64, Said> {
    match number(rt, k, most) {
        Ok(n) => Ok(n),
        Err(NotFigure::Above) => Ok(most),
        Err(NotFigure::Odd) => {
            wrong(rt, program, name, b"figure", k);
            Err(Said)
        }
    }
}

// A number from `least` to `most`.
fn in_range(n: u64, least: u32, most: u32) -> Result<u32, CallWrong> {
    if (n > most as u64) | (n < least as u64) {
        return Err(CallWrong::Usage);
    }
    Ok(n as u32)
}

// Argument k, of this name, as a number from `least` to `most`; where it is none that is said.
pub fn number_in(
    rt: &impl System,
    program: &[u8],
    name: &[u8],
    k: usize,
    least: u32,
    most: u32,
) -> Result<u32, CallWrong> {
    match number(rt, k, most as u64) {
        Ok(n) => in_range(n, least, most),
        Err(NotFigure::Above) => Err(CallWrong::Usage),
        Err(NotFigure::Odd) => {
            wrong(rt, program, name, b"figure", k);
            Err(CallWrong::Said)
        }
    }
}

// Argument k as a word of two hex digits.
fn word(rt: &impl System, k: usize) -> Option<u8> {
    let mut text = [0u8; 4096];
    let Ok(length) = rt.arg(k, &mut text) else {
        return None;
    };
    figures::hex(&text[..length])
}

// Argument k, a sync word of this name; where it is none that is said.
fn sync_word(rt: &impl System, program: &[u8], name: &[u8], k: usize) -> Result<u8, Said> {
    match word(rt, k) {
        Some(byte) => Ok(byte),
        None => {
            wrong(rt, program, name, b"word of two hex digits", k);
            Err(Said)
        }
    }
}

// Argument k as S and the one after it as S*; where one is no sync word that is said.
pub fn sync_pair(rt: &impl System, program: &[u8], k: usize) -> Result<(u8, u8), Said> {
    let s = sync_word(rt, program, b"S", k)?;
    let t = sync_word(rt, program, b"S*", std::num::wrapping_add_usize(k, 1))?;
    Ok((s, t))
}

// Whether argument k is `-`: standard input.
pub fn is_input(rt: &impl System, k: usize) -> bool {
    let mut text = [0u8; 4096];
    let Ok(length) = rt.arg(k, &mut text) else {
        return false;
    };
    (length == 1) & (text[0] == b'-')
}

// Whether argument k is `-` and this letter: an option.
pub fn is_option(rt: &impl System, k: usize, letter: u8) -> bool {
    let mut text = [0u8; 4096];
    let Ok(length) = rt.arg(k, &mut text) else {
        return false;
    };
    (length == 2) & (text[0] == b'-') & (text[1] == letter)
}
