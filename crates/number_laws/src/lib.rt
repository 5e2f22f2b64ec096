// Demand 1 for the public functions of crates that `demands` does not rest on: each number exactly
// under its condition. No code.
// Specification: specs/Numbers.antt; specs/Records.antt (records and frames).
#![tactic(auto)]
