// Which registers an instruction reads.
#![tactic(auto, unfolding(machine::specs::Instruction::reads_operand, machine::specs::Instruction::reads_dst, machine::specs::Instruction::reads, crate::specs::Reads::registers))]

ghost use Rattle.std.specs.Prelude.{◌≡◌, ◌∷◌, ◌++◌};
ghost use Rattle.machine.specs.Instruction.{reads_operand, reads_dst};
ghost use Rattle.machine.specs.Instruction as defined;
ghost use Rattle.explain.specs.Reads.{registers};

use machine::instruction::{Instruction, Operand};
use word::Operation;

// A register, and maybe a second one.
pub type Reads = Option<(u64, Option<u64>)>;

fn with_operand(d: u64, operand: Operand) -> Reads
    ensures { registers result ≡ d ∷ reads_operand operand }
{
    match operand {
        Operand::Immediate(_) => Some((d, None)),
        Operand::Register(s) => Some((d, Some(s))),
    }
}

// Only MOV doesn't read dst.
fn of_alu(operation: Operation, dst: u64, operand: Operand) -> Reads
    ensures { registers result ≡ reads_dst operation dst ++ reads_operand operand }
{
    match (operation, operand) {
        (Operation::Mov, Operand::Immediate(_)) => None,
        (Operation::Mov, Operand::Register(s)) => Some((s, None)),
        _ => with_operand(dst, operand),
    }
}

pub fn reads_of(ins: Instruction) -> Reads
    ensures { registers result ≡ defined.reads ins }
{
    match ins {
        Instruction::Alu {
            operation,
            dst,
            operand,
            ..
        } => of_alu(operation, dst, operand),
        Instruction::Neg { dst, .. } => Some((dst, None)),
        Instruction::Jump { dst, operand, .. } => with_operand(dst, operand),
        Instruction::Exit => Some((0, None)),
        Instruction::Load { src, .. } => Some((src, None)),
        Instruction::Store { dst, operand, .. } => with_operand(dst, operand),
        Instruction::Always { .. } | Instruction::NoInstruction => None,
    }
}
