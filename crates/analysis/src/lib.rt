// What the analysis knows of a program's values, and what it answers. Types only: the analysis is defined in specs/ and computed by the
// crate `verifier`.
#![tactic(auto)]

use machine::instruction::Operand;
use number::{Number, Refined};

// Why a program is refused, by its number in docs/VERIFIER.md.
#[derive(Clone, Copy)]
pub enum Reason {
    BadLength = 1,
    LongRecord = 2,
    NoCode = 3,
    WritesR10 = 4,
    JumpsBack = 5,
    JumpsOut = 6,
    ReadsUnset = 7,
    Outside = 8,
    LeaksAddress = 9,
    DeadCode = 12,
}

// Kept: a refusal is a proper answer, which no caller passes on by `?`; theorems and docs/VERIFIER.md say Accepted and Refused, not Ok(()).
#[derive(Clone, Copy)]
pub enum Finding {
    Accepted,
    Refused { reason: Reason, place: u64 },
}

// The finding, and how much was done for it: instructions looked at, and values of registers copied or joined.
#[derive(Clone, Copy)]
pub struct Judged {
    pub finding: Finding,
    pub work: u64,
}

// The memory that a verifier is given to work in does not hold so many words.
#[derive(Clone, Copy)]
pub struct ScratchTooSmall {
    pub words: u64,
}

// What a verifier says of a program that is given to it with memory to work in.
pub type Answer = Result<Judged, ScratchTooSmall>;

#[derive(Clone, Copy)]
pub enum Region {
    Record,
    Stack,
}

// Why a register may not be used: it is unset on some path, or paths with different kinds of values joined.
#[derive(Clone, Copy)]
pub enum Gone {
    Never,
    Mixed,
}

// A plain number, or an address as its distance from where the region starts, modulo 2^64.
#[derive(Clone, Copy)]
pub enum Value {
    Unusable(Gone),
    Plain(Number),
    Address(Region, Number),
}

// What an instruction does: it is refused; a register gets a value; nothing changes; it forks, with what is left of the two operands on
// either way; it goes to a target; it stops.
#[derive(Clone, Copy)]
pub enum Effect {
    Refuse(Reason),
    Put {
        dst: u64,
        value: Value,
    },
    Keep,
    Fork {
        dst: u64,
        operand: Operand,
        onward: Refined,
        taken: Refined,
        target: u64,
    },
    Goto {
        target: u64,
    },
    Stop,
}
