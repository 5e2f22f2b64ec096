// Judging balises that were read.
ghost use Rattle.std.specs.Prelude.{◌≡◌, ◌≤◌, take};
ghost use Rattle.group.specs.Numbers.{number_of};
ghost use Rattle.group.specs.Judge.{message_of, judge_as, judge_read};
ghost use Rattle.group.specs.Says.{says_group_judged};

use crate::{Content, GroupRefused, Message, Number, contents};
use group_rows::{Direction, Picked, Placed, y_of, z_of};

// The message of a group with what its row says, this number and this content.
fn message(row: Picked, number: Number, content: Content) -> Message
    ensures { result ≡ message_of row number content }
{
    let a = row.a;
    let part = a.part;
    let direction = row.direction;
    let kind = row.kind;
    Message {
        direction,
        kind,
        place: a.place,
        ay: y_of(part),
        az: z_of(part),
        number,
        content,
    }
}

// The judgement of a group that fits a present row.
fn as_present(
    row: Picked,
    number: Number,
    p: [Placed; 5],
    n: usize,
) -> Result<Message, GroupRefused>
    requires { (n ≤ 5) × (number ≡ number_of (take n p)) }
    ensures { says_group_judged result ≡ judge_as Direction.Present row (take n p) }
{
    let a = row.a;
    let part = a.part;
    let kind = row.kind;
    let more = contents::of_present(kind, row.speed, y_of(part), z_of(part), p, n)?;
    Ok(message(row, number, more))
}

// The judgement of the first n balises, whose number this is.
pub fn read(p: [Placed; 5], n: usize, number: Number) -> Result<Message, GroupRefused>
    requires { (n ≤ 5) × (number ≡ number_of (take n p)) }
    ensures { says_group_judged result ≡ judge_read (take n p) }
{
    let row = group_rows::fit(p, n)?;
    let direction = row.direction;
    match direction {
        Direction::Present => as_present(row, number, p, n),
        Direction::Opposite => Ok(message(row, number, Content::Nothing)),
    }
}
