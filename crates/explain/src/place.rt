// A program that was annotated, and an index of it.
use analysis::{Effect, Finding, Value};
use machine::instruction::{Instruction, decode};
use verifier::inspect::{effect_at, register_at};

// A program with the record length that it was annotated for, what `annotate` left in scratch memory, and what it found.
#[derive(Clone, Copy)]
pub struct Annotated<'a> {
    pub program: &'a [u8],
    pub record_len: u64,
    pub scratch: &'a [u64],
    pub finding: Finding,
}

#[derive(Clone, Copy)]
pub(crate) struct Place<'a> {
    pub(crate) annotated: Annotated<'a>,
    pub(crate) index: usize,
}

impl<'a> Place<'a> {
    // How many instructions the program has.
    pub(crate) fn count(self) -> usize {
        self.annotated.program.len() / 8
    }

    // The bytes of the instruction; past the program there are none.
    pub(crate) fn bytes(self) -> &'a [u8] {
        let rest = self.annotated.program.get(self.index.saturating_mul(8)..);
        rest.and_then(|rest| rest.get(..8)).unwrap_or(&[])
    }

    pub(crate) fn instruction(self) -> Instruction {
        decode(self.bytes(), 0)
    }

    // What is known of register r, where a path comes to this index.
    pub(crate) fn known(self, r: u64) -> Option<Value> {
        register_at(self.annotated.scratch, self.count(), self.index, r)
    }

    // What the instruction does, where a path comes to this index.
    pub(crate) fn effect(self) -> Option<Effect> {
        effect_at(
            self.annotated.program,
            self.annotated.record_len,
            self.annotated.scratch,
            self.index,
        )
    }
}
