// Why a closed group was refused, for the depot that asks which balise to go and clean.
// Promises: a reason exactly for a refused group, for the number that it was refused with; the
// balise that it names is the first such one.
// Specification: specs/Explain.antt (the reasons), specs/Opening.antt (the opening run),
// specs/Says.antt (the answers); what they name is true: specs/Truths.antt. Its text:
// specs/Text.antt; a text in a buffer is `text`'s specs/Put.antt.
#![tactic(auto)]

ghost use Rattle.std.specs.Prelude.{◌≡◌};
ghost use Rattle.text.specs.Put.{put, came};
ghost use Rattle.group_reason.specs.Explain.{explain};
ghost use Rattle.group_reason.specs.Says.{says_reason};
ghost use Rattle.group_reason.specs.Text.{reason_text};

mod figures;
mod lines;
mod reading;
mod rows;

use group::Group;
use telegram::Word;
use words::Parity;

// What is bad about a balise: it was unreadable, or a word of it is no code word (1), with the
// parity of its ones, or reads 15 (3).
#[derive(Clone, Copy)]
pub enum BadBalise {
    Unreadable,
    NotCode(Word, Parity),
    Fifteen(Word),
}

// Why a group was refused: none if it was accepted; for 10 and 11 the number of balises (255 stands
// for 255 or more); for 12 the first bad balise, from 0, with its place and what is bad; for 13 how
// many of how many balises open a permitted group; for 15 the balise whose figure breaks the rule,
// with its place.
#[derive(Clone, Copy)]
pub enum Reason {
    None,
    One(u8),
    Many(u8),
    Unread {
        balise: u8,
        place: u32,
        bad: BadBalise,
    },
    NoRow {
        run: u8,
        of: u8,
    },
    NoDistance {
        balise: u8,
        place: u32,
    },
}

// Why a closed group was refused: no reason if it was accepted; for 10 and 11 the number of
// balises; for 12 the first bad balise, its place, and that it was unreadable or its bad word; for
// 13 how many balises open a permitted group; for 15 the balise whose figure breaks the rule, B
// before C.
pub fn explain(group: Group) -> Reason
    ensures { says_reason result ≡ explain group }
{
    let count = group.count;
    let kept = group.kept;
    if count == 1 {
        return Reason::One(count);
    }
    if count > 5 {
        return Reason::Many(count);
    }
    let n = count as usize;
    match reading::read_all(kept, n) {
        Ok(parts) => rows::why_fit(parts, n),
        Err(unread) => Reason::Unread {
            balise: unread.balise,
            place: unread.place,
            bad: unread.bad,
        },
    }
}

// The text of a reason, to the letter, into buf from `at` on, all other bytes as they were, and the
// place after it; without room nothing is written, and the answer is `at`.
pub fn put_reason(reason: Reason, buf: &mut [u8], at: usize) -> usize
    ensures { came result buf.new ≡ put (reason_text (says_reason reason)) buf.old at }
{
    let mut space = [0u8; 96];
    let n = lines::put_text(reason, &mut space, 0);
    text::put(&space[..n], buf, at)
}
