// What an acceptance run comes to, over any lines, over any ride, and by the calls that the program
// makes. No code.
// Promises: nothing of its own; proofs/ shows document 02's sentences on the depot's run of the
// contracts of `acceptance`, `acceptance_text`, `ride` and `settings`.
// Specification: specs/ByContract.antt (what the contracts allow), specs/Lines.antt (groups among
// lines), specs/Accepted.antt (what is promised), specs/Calls.antt (the program's calls),
// specs/Depot.antt (all of it, over a ride).
#![tactic(auto)]
