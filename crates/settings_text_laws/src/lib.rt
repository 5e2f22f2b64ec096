// Demand 1 for the settings as a text, over the contracts of `settings_text::take` and `read`. No
// code.
// Promises: nothing of its own; specs/ has what is claimed, proofs/ shows that it holds.
// Specification: specs/Demand1.antt.
#![tactic(auto)]
