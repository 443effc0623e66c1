// The routines that calculate with known bits, each proved equal to its formula in `known_bits`; what the formulas promise is proved
// there. No public function has a requires: each gives the pair of its formula for any pairs, also for such as have not the form.
// What differs with the width of the words is generic over it.
#![tactic(auto)]

pub mod bitwise;
mod counts;
pub mod learn;
pub mod masks;
pub mod operation;
mod pair;
pub mod paths;
pub mod products;
pub mod shifts;
pub mod sums;
