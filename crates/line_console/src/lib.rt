// The contacts of a line that an open file gives, piece by piece as its bytes come: a line of text
// for each as soon as it has closed, which `listen` and `scope` write, or its strips, which `scope`
// draws.
// Promises: it is safe and it ends; contacts are those of the crate antenna, lines those of
// antenna_text and refusals, strips those of contact_drawing.
// Specification: none of its own; what the pieces come to is crates/antenna_text_laws, that strips
// have room is crates/contact_drawing/specs/Laws.antt, what cannot be said of a program's reads and
// writes stands in docs/EXCEPTIONS.md.
#![tactic(auto)]

mod out;
mod pieces;

use console::{Source, System};
use pieces::LineFailed;

// Goes over what the open file gives from where it stands, for strips or for lines; what goes wrong
// is said, of the argument that names the file. Whether all went well.
pub fn go_over(
    rt: &impl System,
    program: &[u8],
    file: usize,
    from: &mut Source,
    draws: bool,
    s: u8,
    t: u8,
) -> bool {
    match pieces::all(rt, from, draws, s, t) {
        Ok(()) => true,
        Err(LineFailed::Unread) => {
            console::cannot_read(rt, program, file);
            false
        }
        Err(LineFailed::Unwritten) => {
            console::cannot_write(rt, program);
            false
        }
    }
}
