// Why eight bytes are no instruction.
ghost use Rattle.text.specs.Page.{Longer};

use machine::instruction::{Instruction, decode};
use text::page::Page;

// Which rule eight bytes break.
#[derive(Clone, Copy)]
enum Rule {
    NoOpcode(u8),
    NoRegister(u8),
    DstIsSet,
    SrcIsSet,
    OffIsSet,
    ImmIsSet,
}

// Whether these fields are those of an instruction, with an immediate of 0.
fn is_instruction(opcode: u8, registers: u8, low: u8, high: u8) -> bool {
    let bytes = [opcode, registers, low, high, 0, 0, 0, 0];
    !matches!(decode(&bytes, 0), Instruction::NoInstruction)
}

// A field that names a register: there is none of that number, or the field must be 0.
fn register_rule(field: u8, must_be_0: Rule) -> Rule {
    if field > 10 {
        Rule::NoRegister(field)
    } else {
        must_be_0
    }
}

// Which rule eight bytes break, of which these are the first four: the opcode's, with all other fields 0; or that of the first field, in
// the order dst, src, off, imm, with which those before it are no instruction any more. Of an instruction's it is the last rule.
fn rule_of(opcode: u8, registers: u8, low: u8, high: u8) -> Rule {
    if !is_instruction(opcode, 0, 0, 0) {
        Rule::NoOpcode(opcode)
    } else if !is_instruction(opcode, registers % 16, 0, 0) {
        register_rule(registers % 16, Rule::DstIsSet)
    } else if !is_instruction(opcode, registers, 0, 0) {
        register_rule(registers / 16, Rule::SrcIsSet)
    } else if !is_instruction(opcode, registers, low, high) {
        Rule::OffIsSet
    } else {
        Rule::ImmIsSet
    }
}

// Two hexadecimal digits.
pub(crate) fn write_byte(page: &mut Page, b: u8)
    ensures { Longer page.old page.new }
{
    page.hexadecimal(u64::from(b / 16));
    page.hexadecimal(u64::from(b % 16));
}

// Writes the rule that the eight bytes at the start of `bytes` break.
pub fn write_rule(page: &mut Page, bytes: &[u8])
    ensures { Longer page.old page.new }
{
    let [opcode, registers, low, high, ..] = bytes else {
        return;
    };
    match rule_of(*opcode, *registers, *low, *high) {
        Rule::NoOpcode(opcode) => {
            page.text(b"opcode 0x");
            write_byte(page, opcode);
            page.text(b" is not in the instruction set");
        }
        Rule::NoRegister(field) => page.number(b"there is no register r", u64::from(field), b""),
        Rule::DstIsSet => page.text(b"dst must be 0"),
        Rule::SrcIsSet => page.text(b"src must be 0"),
        Rule::OffIsSet => page.text(b"off must be 0"),
        Rule::ImmIsSet => page.text(b"imm must be 0"),
    }
}
