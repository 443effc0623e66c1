// One instruction obeyed, as the machine's definition says: a function a format, an arm an opcode. It stands alone because its
// check is the longest.
#![tactic(auto)]

pub mod answer;
pub mod arithmetic;
pub mod jumps;
pub mod memory;
pub mod obey;
pub mod why;
