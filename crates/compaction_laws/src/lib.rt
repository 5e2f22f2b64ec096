// What document 02 promises of smaller traces, as a theorem over the contracts of `compact`,
// `compact_block`, `run` and `step`. No code.
// Promises: nothing of its own; specs/ has the definitions and what is claimed, proofs/ shows that
// the claims hold.
// Specification: specs/Trace.antt (a whole trace), specs/Blocks.antt (a trace in blocks).
#![tactic(auto)]
