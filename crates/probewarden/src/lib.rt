// The library that a unit links: the functions that it calls from C.
#![tactic(auto)]

pub mod exported;
