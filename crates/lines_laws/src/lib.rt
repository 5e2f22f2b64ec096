// What reading a text comes to, as theorems over the contracts of `lines`. No code.
// Promises: nothing of its own; specs/ has what is claimed, proofs/ shows that it holds.
// Specification: specs/Laws.antt (a line is what its words are; blocks join).
#![tactic(auto)]
