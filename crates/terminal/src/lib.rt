// What the programs of the command share: the arguments, a file, the program in it, and how a start ends. Who started a program reads its
// status on descriptor 3, a digit: 0 yes or ran, 1 refused or faulted, 2 bad usage or unreadable input.
#![tactic(auto)]

pub mod arguments;
pub mod ending;
pub mod file;
pub mod host;
pub mod program;
pub mod room;
