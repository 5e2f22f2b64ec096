// The laws of the whole way, from the text of a track to the records of its lead (docs/LEAD.md). No
// code: theorems over the contracts of track_lead, lead_noise and recording.
// Specification: specs/Sure.antt (a text that is sure to be heard), specs/WholeWay.antt (the law of
// the whole way), specs/Noise.antt (noise, in the lead's words).
#![tactic(auto)]
