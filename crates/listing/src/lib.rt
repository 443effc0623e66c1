// A program as a listing: instructions and lines in the layout of LLVM's disassembler for BPF, and what is known of a value, as text.
// All on slices, with no input or output.
#![tactic(auto)]

mod instruction;
pub mod line;
pub mod rule;
pub mod sign;
pub mod value;
mod words;
