// What is remembered from command to command: the last one, which Enter alone repeats, and the last
// word that was asked for.
ghost use Rattle.std.specs.Prelude.{◌≤◌, length};

use crate::going::smaller;
use viewer_text::Command;

// The command that a line means: its own, or the last one where it asks for the same again.
pub fn meant(command: Command, last: Command) -> Command {
    let Command::Again = command else {
        return command;
    };
    last
}

// What Enter repeats after a command: it, with the word that is remembered; after a line that is no
// command, what it repeated before.
pub fn remembered(command: Command, last: Command) -> Command {
    match command {
        Command::Forward(_) => command,
        Command::Back(_) => command,
        Command::Go(_) => command,
        Command::Place(_) => command,
        Command::Find { from: _, to: _ } => Command::Find { from: 0, to: 0 },
        Command::Quit => last,
        Command::Again => last,
        Command::Unknown => last,
    }
}

// Whether a command is `q`.
pub fn is_quit(command: Command) -> bool {
    match command {
        Command::Quit => true,
        Command::Forward(_) => false,
        Command::Back(_) => false,
        Command::Go(_) => false,
        Command::Place(_) => false,
        Command::Find { from: _, to: _ } => false,
        Command::Again => false,
        Command::Unknown => false,
    }
}

// The word that a command's line names, at the start of `word`, and how many letters it has; where
// it names none the one before stays, which has so many.
pub fn keep_word(command: Command, line: &[u8], word: &mut [u8], count: usize) -> usize
    requires { count ≤ length word.old }
    ensures { result ≤ length word.old }
{
    let Command::Find { from, to } = command else {
        return count;
    };
    if from >= to {
        return count;
    }
    if to > line.len() {
        return count;
    }
    let n = text::put(&line[from..to], word, 0);
    smaller(n, word.len())
}
