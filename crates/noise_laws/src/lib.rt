// What noise can do to the reading of one pass, as theorems over the contracts of `contact::begin`,
// `next_contact` and `judge`. No code.
// Promises: nothing of its own; specs/ has the definitions and what is claimed, proofs/ shows that
// the claims hold.
// Specification: specs/Pass.antt (a pass with flips), specs/Reading.antt (no false reading),
// specs/Marker.antt, specs/Limits.antt with specs/Lines.antt (one flip more).
#![tactic(auto)]
