// What a run comes to.

// Why an instruction is not carried out, by its number in docs/MACHINE.md, section 5.
#[derive(Clone, Copy)]
pub enum Cause {
    BadCode = 1,
    OffEnd = 2,
    Unset = 3,
    WriteR10 = 4,
    BadAccess = 5,
}

// How a run ends: with a verdict, at an instruction that faults, with its budget spent, or before the first step.
// `at` is an index modulo 2^64: a jump back before 0 is off the end.
#[derive(Clone, Copy)]
pub enum Outcome {
    Verdict { value: u64, steps: u64 },
    Fault { cause: Cause, at: u64, steps: u64 },
    Budget { steps: u64 },
    Refused,
}
