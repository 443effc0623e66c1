// Why a probe stops: the cause of the fault at an index, found once, after the run has stopped, since no step carries one.
// The order is that of docs/MACHINE.md, section 5; what passes all tests and faults can only miss the memory.
#![tactic(auto, unfolding(machine::specs::Instruction::reads, machine::specs::Instruction::reads_operand, machine::specs::Instruction::reads_dst, machine::specs::Instruction::writes, machine::specs::Machine::is_no_instruction, machine::specs::Machine::names10, crate::specs::Represent::unset_in, crate::specs::Represent::cause_at))]

ghost use Rattle.std.specs.Prelude.{◌≡◌, ℕ, ◌^◌, ◌<◌, not, List};
ghost use Rattle.machine.specs.Instruction.{reads_operand, reads_dst, reads, writes};
ghost use Rattle.machine.specs.Machine.{World, faults, is_no_instruction, names10, step};
ghost use Rattle.dispatch.specs.Represent.{is_set, state_of, unset_in, cause_at};

use crate::answer::has;
use machine::instruction::{Instruction, Operand, decode};
use machine::outcome::Cause;
use word::Operation;

// Of any number, so that nothing has to be known of the instruction that names it.
fn is_unset(live: u64, r: u64) -> bool
    ensures { result ≡ not (is_set live r) }
{
    if r < 64 {
        return !has(live, r);
    }
    true
}

fn operand_unset(live: u64, operand: Operand) -> bool
    ensures { result ≡ unset_in live (reads_operand operand) }
{
    match operand {
        Operand::Immediate(_) => false,
        Operand::Register(r) => is_unset(live, r),
    }
}

// Only MOV does not read dst.
fn dst_unset(live: u64, operation: Operation, dst: u64) -> bool
    ensures { result ≡ unset_in live (reads_dst operation dst) }
{
    match operation {
        Operation::Mov => false,
        _ => is_unset(live, dst),
    }
}

fn is_none(ins: Instruction) -> bool
    ensures { result ≡ is_no_instruction ins }
{
    matches!(ins, Instruction::NoInstruction)
}

fn writes_r10(ins: Instruction) -> bool
    ensures { result ≡ names10 (writes ins) }
{
    match ins {
        Instruction::Alu { dst, .. } => dst == 10,
        Instruction::Neg { dst, .. } => dst == 10,
        Instruction::Load { dst, .. } => dst == 10,
        _ => false,
    }
}

fn reads_unset(live: u64, ins: Instruction) -> bool
    ensures { result ≡ unset_in live (reads ins) }
{
    match ins {
        Instruction::Alu {
            operation,
            dst,
            operand,
            ..
        } => dst_unset(live, operation, dst) | operand_unset(live, operand),
        Instruction::Neg { dst, .. } => is_unset(live, dst),
        Instruction::Jump { dst, operand, .. } => {
            is_unset(live, dst) | operand_unset(live, operand)
        }
        Instruction::Exit => is_unset(live, 0),
        Instruction::Load { src, .. } => is_unset(live, src),
        Instruction::Store { dst, operand, .. } => {
            is_unset(live, dst) | operand_unset(live, operand)
        }
        _ => false,
    }
}

// The cause of the fault of an instruction: after all tests, only memory is left.
fn cause_of(live: u64, ins: Instruction) -> Cause
    ensures { result ≡ cause_at live ins }
{
    if is_none(ins) {
        return Cause::BadCode;
    }
    if writes_r10(ins) {
        return Cause::WriteR10;
    }
    if reads_unset(live, ins) {
        return Cause::Unset;
    }
    Cause::BadAccess
}

// The cause of the fault at pc, whatever the registers hold and memory is: it is that of the machine's step, if that faults.
// Kept: pc and live, and no Point, since pc is any number, as in `step` of the interpreter.
// Never inlined: what it looks at would take registers away from every step of a run.
#[cold]
#[inline(never)]
pub fn why(program: &[u8], pc: u64, live: u64) -> Cause
    requires { live < 2 ^ 11 }
    ensures { (w : World) (numbers stack : List ℕ) (c : Cause) → step program.now w (state_of numbers live stack pc) ≡ faults c → result ≡ c }
{
    if ((program.len() / 8) as u64) <= pc {
        return Cause::OffEnd;
    }
    cause_of(live, decode(program, (pc as usize) * 8))
}
