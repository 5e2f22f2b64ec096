// What judging a group answers, as text into a lent buffer: each function puts its pieces from `at`
// on, each whole or not at all, and answers the place after them.
ghost use Rattle.std.specs.Prelude.{◌≡◌};
ghost use Rattle.words.specs.Answer.{refuses};
ghost use Rattle.text.specs.Put.{put, came};
ghost use Rattle.text.specs.Pieces.{puts};
ghost use Rattle.group.specs.Says.{says_group_judged};
ghost use Rattle.test_rows.specs.Answers.{direction_word, told_pieces, distance_pieces, content_pieces, balise_pieces, number_pieces, message_pieces, answer_pieces};

use group::{Content, GroupRefused, Message, Number, Told};
use group_rows::Direction;

fn direction(d: Direction, out: &mut [u8], at: usize) -> usize
    ensures { came result out.new ≡ put (direction_word d) out.old at }
{
    match d {
        Direction::Present => text::put(b"present", out, at),
        Direction::Opposite => text::put(b"opposite", out, at),
    }
}

// A speed after its words, or a dash.
fn told(words: &[u8], t: Told, out: &mut [u8], at: usize) -> usize
    ensures { came result out.new ≡ puts (told_pieces words.now t) out.old at }
{
    match t {
        Told::Kmh(v) => text::put_number(words, v as u64, out, at),
        Told::Unknown => {
            let next = text::put(words, out, at);
            text::put(b"-", out, next)
        }
    }
}

fn distance(dm: u32, preset: bool, out: &mut [u8], at: usize) -> usize
    ensures { came result out.new ≡ puts (distance_pieces dm preset) out.old at }
{
    let next = text::put_number(b", ", dm as u64, out, at);
    if preset {
        return text::put(b" dm preset", out, next);
    }
    text::put(b" dm", out, next)
}

// What the group says beyond its kind.
fn content(c: Content, out: &mut [u8], at: usize) -> usize
    ensures { came result out.new ≡ puts (content_pieces c) out.old at }
{
    match c {
        Content::Signal {
            distance: dm,
            preset,
            main,
            target,
        } => {
            let next = distance(dm, preset, out, at);
            let last = told(b", main ", main, out, next);
            told(b", target ", target, out, last)
        }
        Content::Warning { distance: dm } => distance(dm, false, out, at),
        Content::Route(v) => text::put_number(b", speed ", v as u64, out, at),
        Content::Nothing => at,
    }
}

// The place and the figures of the A balise.
fn balise(place: u32, ay: u8, az: u8, out: &mut [u8], at: usize) -> usize
    ensures { came result out.new ≡ puts (balise_pieces place ay az) out.old at }
{
    let after_place = text::put_number(b", A at ", place as u64, out, at);
    let after_ay = text::put_number(b", AY ", ay as u64, out, after_place);
    text::put_number(b", AZ ", az as u64, out, after_ay)
}

// The group's number, if it has one.
fn number(n: Number, out: &mut [u8], at: usize) -> usize
    ensures { came result out.new ≡ puts (number_pieces n) out.old at }
{
    match n {
        Number::None => at,
        Number::Figure(m) => text::put_number(b", n", m as u64, out, at),
    }
}

fn message(m: Message, out: &mut [u8], at: usize) -> usize
    ensures { came result out.new ≡ puts (message_pieces m) out.old at }
{
    let d = m.direction;
    let k = m.kind;
    let n = m.number;
    let c = m.content;
    let after_direction = direction(d, out, at);
    let after_kind = ride_text::put_kind(k, out, after_direction);
    let after_balise = balise(m.place, m.ay, m.az, out, after_kind);
    let after_number = number(n, out, after_balise);
    content(c, out, after_number)
}

// A refusal by its number, at the start of out.
fn refused(n: u8, out: &mut [u8]) -> usize
    ensures { came result out.new ≡ puts (answer_pieces (refuses n)) out.old 0 }
{
    text::put_number(b"refused ", n as u64, out, 0)
}

// The whole answer at the start of out, piece by piece, each whole or not at all; answers how many
// bytes it has.
pub fn put(j: Result<Message, GroupRefused>, out: &mut [u8]) -> usize
    ensures { came result out.new ≡ puts (answer_pieces (says_group_judged j)) out.old 0 }
{
    match j {
        Ok(m) => message(m, out, 0),
        Err(e) => refused(u8::from(e), out),
    }
}
