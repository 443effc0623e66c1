// The states that wait for the indices of a program, in lent words, and nothing of how they come about: values, states, and the store that has
// one block for each index.
#![tactic(auto)]

pub mod state;
pub mod store;
pub mod value;

pub const REGISTERS: usize = 11;
// A value: its kind, the value and mask of its known bits, the ends of its range.
pub const VALUE_WORDS: usize = 5;
// A state: the values of the registers.
pub const STATE_WORDS: usize = REGISTERS * VALUE_WORDS;
// A block: whether a state waits in it, and the state.
pub const BLOCK_WORDS: usize = 1 + STATE_WORDS;
// Enough for the longest program, of 4,096 instructions.
pub const MOST_WORDS: usize = 4096 * BLOCK_WORDS;
