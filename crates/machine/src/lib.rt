// The probe machine: its instructions, what they do, and the leaves that an interpreter of it is made of.
// The definitions are in `specs/`.
#![tactic(auto)]

pub mod instruction;
pub mod limits;
pub mod memory;
pub mod outcome;
