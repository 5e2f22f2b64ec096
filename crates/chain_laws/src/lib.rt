// The way from figures to a line of the listing: write, pass, detect, judge, record, ride, as
// theorems over the contracts of the crates below. No code.
// Promises: nothing of its own; specs/ has what is claimed, proofs/ shows that it holds.
// Specification: specs/Same.antt (a record says the balise that was judged), specs/InFull.antt (one
// way in full).
#![tactic(auto)]
