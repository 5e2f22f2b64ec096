// What is sure to be heard, as theorems over the contracts of `contact::begin`, `next_contact` and
// `judge`. No code.
// Promises: nothing of its own; specs/ has the definitions and what is claimed, proofs/ shows that
// the claims hold.
// Specification: specs/Heard.antt (one balise), specs/Marker.antt, specs/Row.antt (one after the
// other), specs/Limits.antt (less does not do).
#![tactic(auto)]
