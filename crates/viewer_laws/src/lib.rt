// What a session over a viewer comes to, as the program `view` holds it: theorems over the
// contracts of what it calls. No code.
// Promises: nothing of its own; specs/ has what is claimed, proofs/ shows that it holds.
// Specification: specs/Session.antt (where it stands), specs/Seeking.antt (where a word leads),
// specs/Lasting.antt (the last lines on a screen).
#![tactic(auto)]
