// What is promised of a line heard piece by piece and of a recorded lead (docs/LEAD.md), as
// theorems over the contracts of the crates below. No code.
// Promises: nothing of its own; specs/ has what is claimed, proofs/ shows that it holds.
// Specification: specs/Calls.antt (what the contracts allow), specs/Hearing.antt (a line in
// pieces), specs/Recorded.antt (a lead and its records), specs/Says.antt (a record says the balise
// judged), specs/Row.antt (balises passed clean), specs/Demand1.antt (refusal 5).
#![tactic(auto)]
