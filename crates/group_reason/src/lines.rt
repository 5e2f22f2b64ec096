// The text of a reason, piece by piece, where there is room for it.
ghost use Rattle.std.specs.Prelude.{◌≡◌, ◌+◌, ◌≤◌, length};
ghost use Rattle.text.specs.Put.{put, came};
ghost use Rattle.words.specs.Why.{why, are};
ghost use Rattle.group_reason.specs.Reason.{opens, because};
ghost use Rattle.group_reason.specs.Says.{says_bad_balise, says_reason};
ghost use Rattle.group_reason.specs.Text.{letter, refused_as, badly, balise_at, so_many, reason_text};

use crate::{BadBalise, Reason};
use telegram::Word;
use text::{put, put_number};
use words::Parity;

// Which word is bad.
fn put_letter(word: Word, buf: &mut [u8], at: usize) -> usize
    ensures { came result buf.new ≡ put (letter word) buf.old at }
{
    match word {
        Word::X => put(b" word X", buf, at),
        Word::Y => put(b" word Y", buf, at),
        Word::Z => put(b" word Z", buf, at),
        Word::YZ => put(b" word YZ", buf, at),
    }
}

// That a word is refused with 1, and its parity.
fn put_parity(parity: Parity, buf: &mut [u8], at: usize) -> usize
    ensures { came result buf.new ≡ put (refused_as (why 1 (are parity))) buf.old at }
{
    match parity {
        Parity::Odd => put(b" refused 1 odd", buf, at),
        Parity::Even => put(b" refused 1 even", buf, at),
    }
}

// What is bad about a balise.
fn put_bad(bad: BadBalise, buf: &mut [u8], at: usize) -> usize
    requires { at + length (badly (says_bad_balise bad)) ≤ length buf.old }
    ensures { came result buf.new ≡ put (badly (says_bad_balise bad)) buf.old at }
{
    match bad {
        BadBalise::Unreadable => put(b" unreadable", buf, at),
        BadBalise::NotCode(word, parity) => {
            let a = put_letter(word, buf, at);
            put_parity(parity, buf, a)
        }
        BadBalise::Fifteen(word) => {
            let a = put_letter(word, buf, at);
            put(b" refused 3", buf, a)
        }
    }
}

// A balise, counted from 1, and its place.
fn put_balise(i: u8, place: u32, buf: &mut [u8], at: usize) -> usize
    requires { at + length (balise_at i place) ≤ length buf.old }
    ensures { came result buf.new ≡ put (balise_at i place) buf.old at }
{
    let a = put_number(b"balise ", i as u64 + 1, buf, at);
    put_number(b" at ", place as u64, buf, a)
}

// So many balises; 255 stands for 255 or more.
fn put_many(n: u8, buf: &mut [u8], at: usize) -> usize
    requires { at + length (so_many n) ≤ length buf.old }
    ensures { came result buf.new ≡ put (so_many n) buf.old at }
{
    if n == 255 {
        return put(b"255 or more balises", buf, at);
    }
    let a = put_number(b"", n as u64, buf, at);
    put(b" balises", buf, a)
}

// How many of how many balises open a permitted group.
fn put_run(run: u8, of: u8, buf: &mut [u8], at: usize) -> usize
    requires { at + length (reason_text (because 13 (opens run of))) ≤ length buf.old }
    ensures { came result buf.new ≡ put (reason_text (because 13 (opens run of))) buf.old at }
{
    let a = put_number(b"", run as u64, buf, at);
    let b = put_number(b" of ", of as u64, buf, a);
    put(b" balises open a permitted group", buf, b)
}

// The text of a reason.
pub fn put_text(reason: Reason, buf: &mut [u8], at: usize) -> usize
    requires { at + length (reason_text (says_reason reason)) ≤ length buf.old }
    ensures { came result buf.new ≡ put (reason_text (says_reason reason)) buf.old at }
{
    match reason {
        Reason::None => put(b"", buf, at),
        Reason::One(n) => {
            let a = put_number(b"", n as u64, buf, at);
            put(b" balise", buf, a)
        }
        Reason::Many(n) => put_many(n, buf, at),
        Reason::Unread { balise, place, bad } => {
            let a = put_balise(balise, place, buf, at);
            put_bad(bad, buf, a)
        }
        Reason::NoRow { run, of } => put_run(run, of, buf, at),
        Reason::NoDistance { balise, place } => put_balise(balise, place, buf, at),
    }
}
