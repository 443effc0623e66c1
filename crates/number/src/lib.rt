// What the analysis knows of a plain number: known bits and a range, both at once. Types only: what is done with them is defined in specs/
// and computed by the crate `calculator`.
#![tactic(auto)]

use known_bits::Bits;

// The numbers from lo to hi; none where hi is below lo.
#[derive(Clone, Copy)]
pub struct Range {
    pub lo: u64,
    pub hi: u64,
}

#[derive(Clone, Copy)]
pub struct Number {
    pub bits: Bits,
    pub range: Range,
}

// What is left of two numbers on a way out of their comparison: none goes it, or each is sharper.
pub type Refined = Option<(Number, Number)>;
