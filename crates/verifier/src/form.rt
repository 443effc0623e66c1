// The tests on form of one instruction, and of all of them in their order.
#![tactic(auto, unfolding(crate::specs::Form::arithmetic_tests, crate::specs::Form::jump_tests, crate::specs::Form::load_tests, crate::specs::Form::store_of_imm_tests, crate::specs::Form::store_of_src_tests, crate::specs::Form::class_tests, crate::specs::Form::field_tests, crate::specs::Form::with_operand_tests, crate::specs::Form::operand_fits, crate::specs::Form::coded, crate::specs::Form::has_line, crate::specs::Form::told, machine::specs::Instruction::operations, machine::specs::Instruction::comparisons, machine::specs::Instruction::loads, machine::specs::Instruction::stores_of_imm, machine::specs::Instruction::stores_of_src))]

ghost use Rattle.std.specs.Prelude.{◌≡◌, ◌&&◌, ◌/◌, ◌%◌, ◌≤◌, length, ◌==◌};
ghost use Rattle.analysis.specs.Form.{failing, instruction};
ghost use Rattle.analysis.specs.Judged.{formed};
ghost use Rattle.machine.specs.Instruction.{operations, comparisons, loads, stores_of_imm, stores_of_src};
ghost use Rattle.verifier.specs.Form.{told, when_last, when_writing, when_jumping, operand_fits};
ghost use Rattle.verifier.specs.Form as defined;

use crate::index::Index;
use analysis::{Finding, Reason};
use machine::instruction::{Fields, fields_at};
use word::sign::extend;
use word::width::W16;

impl Index {
    // An instruction that goes on to the next one may not be the last.
    fn going_on(self) -> Result<(), Reason>
        ensures { told result ≡ when_last self.n self.i }
    {
        if self.i + 1 == self.n {
            return Err(Reason::JumpsOut);
        }
        Ok(())
    }

    fn writing(self, dst: u64) -> Result<(), Reason>
        ensures { told result ≡ when_writing self.n self.i dst }
    {
        if dst == 10 {
            return Err(Reason::WritesR10);
        }
        self.going_on()
    }

    // A target within the program has an instruction before it, so that a jump to it is not the last.
    fn jumping(self, off: u64) -> Result<(), Reason>
        ensures { told result ≡ when_jumping self.n self.i off }
    {
        if 0x8000000000000000 <= off {
            return Err(Reason::JumpsBack);
        }
        if self.n as u64 <= self.i as u64 + 1 + off {
            return Err(Reason::JumpsOut);
        }
        Ok(())
    }
}

// The lines of the tables.
// Kept: the tables of `machine` answer what a code means; a pattern becomes one test of a bit, and nothing is made.
fn has_operation(code: u8) -> bool
    ensures { result ≡ defined.has_line code operations }
{
    matches!(code, 0 | 1 | 2 | 3 | 4 | 5 | 6 | 7 | 9 | 10 | 11 | 12)
}

fn has_comparison(code: u8) -> bool
    ensures { result ≡ defined.has_line code comparisons }
{
    matches!(code, 1 | 2 | 3 | 4 | 5 | 6 | 7 | 10 | 11 | 12 | 13)
}

fn has_load(opcode: u8) -> bool
    ensures { result ≡ defined.has_line opcode loads }
{
    matches!(opcode, 0x71 | 0x69 | 0x61 | 0x79)
}

fn has_store_of_imm(opcode: u8) -> bool
    ensures { result ≡ defined.has_line opcode stores_of_imm }
{
    matches!(opcode, 0x72 | 0x6a | 0x62 | 0x7a)
}

fn has_store_of_src(opcode: u8) -> bool
    ensures { result ≡ defined.has_line opcode stores_of_src }
{
    matches!(opcode, 0x73 | 0x6b | 0x63 | 0x7b)
}

// Bit 3 of the opcode says what the second operand is, and which field is unused.
fn has_operand(f: Fields) -> bool
    ensures { result ≡ operand_fits f }
{
    if f.opcode / 8 % 2 == 0 {
        return f.src == 0;
    }
    f.imm == 0
}

// NEG, which is 8, has bit 3 clear and neither src nor imm.
fn has_neg(f: Fields) -> bool
    ensures { result ≡ (f.opcode / 8 % 2 == 0 && f.src == 0 && f.imm == 0) }
{
    (f.opcode / 8 % 2 == 0) & (f.src == 0) & (f.imm == 0)
}

fn arithmetic(at: Index, f: Fields) -> Result<(), Reason>
    ensures { told result ≡ defined.arithmetic_tests at.n at.i f }
{
    if f.off != 0 {
        return Err(Reason::NoCode);
    }
    if f.opcode / 16 == 8 {
        if has_neg(f) {
            return at.writing(f.dst);
        }
        return Err(Reason::NoCode);
    }
    if !has_operation(f.opcode / 16) {
        return Err(Reason::NoCode);
    }
    if !has_operand(f) {
        return Err(Reason::NoCode);
    }
    at.writing(f.dst)
}

// Of either width, since JA and EXIT are told by the whole opcode.
fn jump(at: Index, f: Fields) -> Result<(), Reason>
    ensures { told result ≡ defined.jump_tests at.n at.i f }
{
    if f.opcode == 0x95 {
        if (f.dst == 0) & (f.src == 0) & (f.imm == 0) & (f.off == 0) {
            return Ok(());
        }
        return Err(Reason::NoCode);
    }
    if f.opcode == 0x05 {
        if (f.dst == 0) & (f.src == 0) & (f.imm == 0) {
            return at.jumping(extend::<W16>(f.off));
        }
        return Err(Reason::NoCode);
    }
    if !has_comparison(f.opcode / 16) {
        return Err(Reason::NoCode);
    }
    if !has_operand(f) {
        return Err(Reason::NoCode);
    }
    at.jumping(extend::<W16>(f.off))
}

fn load(at: Index, f: Fields) -> Result<(), Reason>
    ensures { told result ≡ defined.load_tests at.n at.i f }
{
    if has_load(f.opcode) & (f.imm == 0) {
        return at.writing(f.dst);
    }
    Err(Reason::NoCode)
}

fn store_of_imm(at: Index, f: Fields) -> Result<(), Reason>
    ensures { told result ≡ defined.store_of_imm_tests at.n at.i f }
{
    if has_store_of_imm(f.opcode) & (f.src == 0) {
        return at.going_on();
    }
    Err(Reason::NoCode)
}

fn store_of_src(at: Index, f: Fields) -> Result<(), Reason>
    ensures { told result ≡ defined.store_of_src_tests at.n at.i f }
{
    if has_store_of_src(f.opcode) & (f.imm == 0) {
        return at.going_on();
    }
    Err(Reason::NoCode)
}

fn by_class(at: Index, f: Fields) -> Result<(), Reason>
    ensures { told result ≡ defined.class_tests at.n at.i f }
{
    match f.opcode % 8 {
        4 | 7 => arithmetic(at, f),
        5 | 6 => jump(at, f),
        1 => load(at, f),
        2 => store_of_imm(at, f),
        3 => store_of_src(at, f),
        _ => Err(Reason::NoCode),
    }
}

fn test(at: Index, f: Fields) -> Result<(), Reason>
    ensures { told result ≡ defined.field_tests at.n at.i f }
{
    if 10 < f.dst {
        return Err(Reason::NoCode);
    }
    if 10 < f.src {
        return Err(Reason::NoCode);
    }
    by_class(at, f)
}

// The instruction itself is not made: a program is decoded once, where its values are followed.
fn test_at(program: &[u8], at: Index) -> Result<(), Reason>
    requires { at.n ≡ length program.now / 8 }
    ensures { told result ≡ failing (length program.now / 8) at.i (instruction program.now at.i) }
{
    test(at, fields_at(program, at.i * 8))
}

// The first index that fails, for a program of n instructions.
pub fn check(program: &[u8], n: usize) -> Finding
    requires { (n ≤ 4096) × (n ≡ length program.now / 8) }
    ensures { result ≡ formed program.now (length program.now / 8) 0 }
{
    for i in 0..n {
        if let Err(reason) = test_at(program, Index { i, n }) {
            return Finding::Refused {
                reason,
                place: i as u64,
            };
        }
    }
    Finding::Accepted
}
