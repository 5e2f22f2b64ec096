// What is promised of the lines of a lead (docs/LEAD.md), as theorems over the contracts of the
// crates below. No code.
// Promises: nothing of its own; specs/ has what is claimed, proofs/ shows that it holds.
// Specification: specs/Calls.antt (what the contracts allow), specs/Live.antt (the lines of `live`
// are those of `explain` over what `record` writes), specs/Explain.antt (call for call, over the
// trace's bytes), specs/Demand1.antt (which settings are refused, and what that leaves).
#![tactic(auto)]
