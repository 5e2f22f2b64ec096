// What a reading of a line that is heard piece by piece is worth under noise, as a theorem over the
// contracts of `antenna::fresh` and `hear_piece`. No code.
// Promises: nothing of its own; specs/ has what is claimed, proofs/ shows that it holds.
// Specification: specs/InPieces.antt.
#![tactic(auto)]
