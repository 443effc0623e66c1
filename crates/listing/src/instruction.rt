// An instruction, in the syntax of LLVM's disassembler for BPF, version 14, with decimal immediates.
ghost use Rattle.text.specs.Page.{Longer};

use crate::sign::{magnitude, sign};
use crate::words::{comparison_word, operation_word, size_word};
use machine::instruction::{Instruction, Operand, Size, Width};
use text::page::Page;
use word::Operation;

// A register's name: r at 64 bits, w for its low 32.
fn prefix_of(width: Width) -> u8 {
    match width {
        Width::Long => b'r',
        Width::Short => b'w',
    }
}

fn write_register(page: &mut Page, prefix: u8, register: u64)
    ensures { Longer page.old page.new }
{
    page.letter(prefix);
    page.decimal(register);
}

fn write_operand(page: &mut Page, prefix: u8, operand: Operand)
    ensures { Longer page.old page.new }
{
    match operand {
        Operand::Immediate(n) => {
            if sign(n) == b'-' {
                page.letter(b'-');
            }
            page.decimal(magnitude(n));
        }
        Operand::Register(register) => write_register(page, prefix, register),
    }
}

// Two operands, with a word between them.
fn write_between(page: &mut Page, width: Width, dst: u64, word: &[u8], operand: Operand)
    ensures { Longer page.old page.new }
{
    let prefix = prefix_of(width);
    write_register(page, prefix, dst);
    page.text(word);
    write_operand(page, prefix, operand);
}

fn write_goto(page: &mut Page, off: u64)
    ensures { Longer page.old page.new }
{
    page.text(b"goto ");
    page.letter(sign(off));
    page.decimal(magnitude(off));
}

// So many bytes of memory, at a register and an offset.
fn write_place(page: &mut Page, size: Size, register: u64, off: u64)
    ensures { Longer page.old page.new }
{
    page.text(b"*(");
    page.text(size_word(size));
    page.text(b" *)(");
    write_register(page, b'r', register);
    page.letter(b' ');
    page.letter(sign(off));
    page.letter(b' ');
    page.decimal(magnitude(off));
    page.letter(b')');
}

// Of what is no instruction nothing is written.
pub fn write_instruction(page: &mut Page, instruction: Instruction)
    ensures { Longer page.old page.new }
{
    match instruction {
        Instruction::Alu {
            width,
            operation,
            dst,
            operand,
        } => write_between(page, width, dst, operation_word(operation), operand),
        Instruction::Neg { width, dst } => {
            let word = operation_word(Operation::Neg);
            write_between(page, width, dst, word, Operand::Register(dst));
        }
        Instruction::Jump {
            width,
            comparison,
            dst,
            operand,
            off,
        } => {
            page.text(b"if ");
            write_between(page, width, dst, comparison_word(comparison), operand);
            page.letter(b' ');
            write_goto(page, off);
        }
        Instruction::Always { off } => write_goto(page, off),
        Instruction::Exit => page.text(b"exit"),
        Instruction::Load {
            size,
            dst,
            src,
            off,
        } => {
            write_register(page, b'r', dst);
            page.text(b" = ");
            write_place(page, size, src, off);
        }
        Instruction::Store {
            size,
            dst,
            off,
            operand,
        } => {
            write_place(page, size, dst, off);
            page.text(b" = ");
            write_operand(page, b'r', operand);
        }
        Instruction::NoInstruction => {}
    }
}
