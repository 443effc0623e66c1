// The verifier: the analysis' definition as a routine, in lent memory. On any bytes, any record length and any scratch memory it gives the
// answer that is defined, and an accepted program is safe.
#![tactic(auto)]

mod effect;
mod form;
mod index;
pub mod inspect;
mod pass;
mod paths;
mod send;
pub mod verify;
mod ways;

use analysis::Reason;

// Why the pass halts, and how much has been done then.
#[derive(Clone, Copy)]
pub struct Halt {
    pub reason: Reason,
    pub work: u64,
}

// How much has been done after a step of the pass, if it goes on.
pub type Step = Result<u64, Halt>;
