// The routines that calculate with Numbers, each proved equal to its definition in `number`; what they promise is proved there of the
// definitions. No function has a requires. What differs with the width of the words is generic over it.
#![tactic(auto)]

pub mod compare;
pub mod halves;
pub mod operation;
mod range;
pub mod sharpen;
