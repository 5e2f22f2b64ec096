// Demand 1 for the face for C, what a refusal leaves, that lent bytes read back, and that pieces
// and rooms make no difference. No code.
// Promises: nothing of its own; specs/ has what is claimed, proofs/ shows that the claims hold.
// Specification: specs/Demand1.antt, Settings.antt, SettingsText.antt, Handed.antt, Sent.antt,
// Rides.antt and Leads.antt, over the contracts as Calls.antt, RideCalls.antt and LeadsCalls.antt
// have them.
#![tactic(auto)]
