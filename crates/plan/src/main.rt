// The entries of a plan from the file in which they are typed, a line for each, to standard output.
// Promises: it is safe and it ends; what a line says and its entry are those of plan_text.
// Specification: none of its own; what cannot be said of a program's reads and writes stands in
// docs/EXCEPTIONS.md.
#![tactic(auto)]

use typed::Form;

fn main(rt: HostRuntime) {
    typed::run(&rt, b"plan", Form::Plan);
}
