// The functions of crates/abi for C and C++, under the names of include/atc2.h: each export is one
// call, and promises what that call promises.
#![tactic(auto)]

pub mod balises;
pub mod codes;
pub mod contacts;
pub mod distances;
pub mod leads;
pub mod rides;
pub mod stores;
pub mod telegrams;
pub mod traces;
pub mod why;
