// One balise's line, bit after bit, and what a stretch of it is received as. No code.
// Promises: nothing of its own; proofs/ has the laws of such a stretch: which of its bits are
// places, and what is read there.
// Specification: specs/Line.antt, specs/Forty.antt.
#![tactic(auto)]
