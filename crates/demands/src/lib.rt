// The three demands, noise on the sync words, and what document 02 promises beside them, as
// theorems over the contracts of the crates below. No code.
// Promises: nothing of its own; specs/ has the definitions and what is claimed, proofs/ shows that
// the claims hold.
// Specification: specs/Demand1.antt (with Table, Table02, RecordTable and Plans: which number,
// when), Demand2.antt, Demand3.antt, SyncNoise.antt; beside them Stores, Settings, Sections,
// PlainGap, Viewing, Compacting, OddOrEven and Reasons; the contracts they speak of: Contracts,
// Calls.
#![tactic(auto)]
