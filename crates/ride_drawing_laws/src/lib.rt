// What is promised of the picture of a ride, as theorems over the contracts of `ride_drawing::draw`
// and `draw_end`. No code.
// Promises: nothing of its own; specs/ has the definitions and what is claimed, proofs/ shows that
// the claims hold.
// Specification: specs/Pictures.antt (what is refused), specs/Blocks.antt (a ride in blocks),
// specs/Pages.antt (a ride with its end).
#![tactic(auto)]
