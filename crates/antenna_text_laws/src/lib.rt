// What a listener writes of a line that comes in pieces, as a theorem over the contracts of the
// crates below. No code.
// Promises: nothing of its own; specs/ has what is claimed, proofs/ shows that it holds.
// Specification: specs/Listening.antt.
#![tactic(auto)]
