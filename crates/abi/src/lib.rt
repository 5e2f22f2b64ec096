// The checker's libraries for C and C++, under the names and with the numbers of include/atc2.h.
// Promises: each call returns its answer as a C number, -N for refusal N; a refusal leaves every
// lent array as it was.
// Specification: specs/Face.antt, Contacts.antt, Stores.antt, Rides.antt and Leads.antt (answers as
// C numbers), over the specifications of the crates below.
#![tactic(auto)]

pub mod balises;
pub mod codes;
pub mod contacts;
pub mod distances;
pub mod leads;
mod number;
mod refusal;
pub mod rides;
pub mod stores;
pub mod telegrams;
pub mod traces;
pub mod why;
