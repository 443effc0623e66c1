// Words, numbers and bytes read from text, and pages that text is written to: all on slices, with no input or output.
// The definitions that the contracts cite are in `specs/`.
#![tactic(auto)]

pub mod digit;
pub mod dump;
pub mod hex;
pub mod number;
pub mod page;
pub mod pair;
pub mod scan;
