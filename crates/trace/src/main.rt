// The records of a trace from the file in which they are typed, a line for each, to standard
// output.
// Promises: it is safe and it ends; what a line says and its record are those of trace_text.
// Specification: none of its own; the laws are those of the crates lines_laws and trace_text_laws,
// what cannot be said of a program's reads and writes stands in docs/EXCEPTIONS.md.
#![tactic(auto)]

use typed::Form;

fn main(rt: HostRuntime) {
    typed::run(&rt, b"trace", Form::Trace);
}
