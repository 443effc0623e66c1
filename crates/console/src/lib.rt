// Requests of the batch protocol, a line each, and their answers: all on slices, with no input or output.
#![tactic(auto)]

pub mod answer;
pub mod bits;
pub mod request;
pub mod verify;
