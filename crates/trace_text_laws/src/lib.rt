// A record and what it says, there and back, as theorems over the contracts of `trace_text`. No
// code.
// Promises: nothing of its own; specs/ has what is claimed, proofs/ shows that it holds.
// Specification: specs/Laws.antt.
#![tactic(auto)]
