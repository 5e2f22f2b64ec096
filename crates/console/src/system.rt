// The system, as a program uses it, and what is read from it.
use std::fs::File;
use std::io;
use std::io::{IsTerminal, Read};
use std::rt::{Clock, Env, Files};

// Files, arguments, the clock and the two streams, as std has them; and of the streams what std's
// bounds do not have: bytes that need not be text on standard error, and whether a stream is a
// terminal.
pub trait System: Files<File = File> + Env + Clock + Print + Eprint + Input {
    fn write_error(&self, bytes: &[u8]) -> io::Result<()>;

    fn is_input_terminal(&self) -> bool;

    fn is_output_terminal(&self) -> bool;

    fn is_error_terminal(&self) -> bool;
}

impl System for HostRuntime {
    fn write_error(&self, bytes: &[u8]) -> io::Result<()> {
        self.stderr().write_all(bytes)
    }

    fn is_input_terminal(&self) -> bool {
        self.stdin().is_terminal()
    }

    fn is_output_terminal(&self) -> bool {
        self.stdout().is_terminal()
    }

    fn is_error_terminal(&self) -> bool {
        self.stderr().is_terminal()
    }
}

// What bytes are read from: an open file, or standard input as the program was given it. A file is
// closed where the value is let go.
#[derive(Drop)]
pub enum Source {
    Opened(File),
    Given,
}
