// What the verifier knows at each index of a program, and why it refuses, as text.
// All on slices, with no input or output.
#![tactic(auto)]

mod access;
mod effect;
pub mod joins;
pub mod known;
mod leak;
pub mod line;
mod note;
pub mod place;
mod reads;
mod refusal;
mod registers;
