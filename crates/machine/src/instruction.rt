// An instruction, taken out of its eight bytes.
// Each function is a definition of `specs/`, or the part of one that its contract says.
#![tactic(auto, unfolding(crate::specs::Instruction::lookup, crate::specs::Instruction::operations, crate::specs::Instruction::comparisons, crate::specs::Instruction::loads, crate::specs::Instruction::stores_of_imm, crate::specs::Instruction::stores_of_src, crate::specs::Instruction::only, crate::specs::Instruction::with_operand, crate::specs::Instruction::arithmetic, crate::specs::Instruction::jump, crate::specs::Instruction::load, crate::specs::Instruction::store_of_imm, crate::specs::Instruction::store_of_src, crate::specs::Instruction::by_class, crate::specs::Instruction::meaning, crate::specs::Instruction::decode, crate::specs::Decoding::made, crate::specs::Decoding::or_none))]

ghost use Rattle.std.specs.Prelude.{◌≡◌, cond, ◌&&◌, ◌+◌, ◌/◌, ◌%◌, ◌≤◌, ◌<◌, length, ◌==◌, nat_le};
ghost use Rattle.word.specs.Word.{extend};
ghost use Rattle.machine.specs.Instruction.{only, operations, comparisons, loads, stores_of_imm, stores_of_src};
ghost use Rattle.machine.specs.Instruction as defined;
ghost use Rattle.machine.specs.Decoding.{Found, IsOperand, or_none};

use crate::memory::{fetch, fetch1, fetch2};
use word::sign::extend;
use word::width::{W16, W32};
use word::{Comparison, Operation};

// Classes 7 and 5 work on 64 bits, classes 4 and 6 on the low 32.
#[derive(Clone, Copy)]
pub enum Width {
    Long,
    Short,
}

// How many bytes a load or a store moves.
#[derive(Clone, Copy)]
pub enum Size {
    One = 1,
    Two = 2,
    Four = 4,
    Eight = 8,
}

// The second operand: imm, extended with its sign to 64 bits, or a register.
#[derive(Clone, Copy)]
pub enum Operand {
    Immediate(u64),
    Register(u64),
}

// `off` is extended with its sign to 64 bits.
#[derive(Clone, Copy)]
pub enum Instruction {
    Alu {
        width: Width,
        operation: Operation,
        dst: u64,
        operand: Operand,
    },
    Neg {
        width: Width,
        dst: u64,
    },
    Jump {
        width: Width,
        comparison: Comparison,
        dst: u64,
        operand: Operand,
        off: u64,
    },
    Always {
        off: u64,
    },
    Exit,
    Load {
        size: Size,
        dst: u64,
        src: u64,
        off: u64,
    },
    Store {
        size: Size,
        dst: u64,
        off: u64,
        operand: Operand,
    },
    // Kept: what is no instruction is one of the enum, as the definition `decode` and the theorems on it have it.
    NoInstruction,
}

// The fields of eight bytes, off and imm without their signs.
// Kept: that dst and src are below 16 is a clause where it is used, and no invariant: the definition `fields` is of this type, and a proof in
// it would be one more thing to believe.
#[derive(Clone, Copy)]
pub struct Fields {
    pub opcode: u8,
    pub dst: u64,
    pub src: u64,
    pub off: u64,
    pub imm: u64,
}

// The fields of the eight bytes at i. To load each by itself takes less than to take a word apart; only imm, of which some users want
// single bytes, is loaded whole when it is the upper half of a word.
pub fn fields_at(m: &[u8], i: usize) -> Fields
    requires { i + 8 ≤ length m.now }
    ensures fields { result ≡ defined.fields m.now i }
    ensures registers { (result.dst < 16) × (result.src < 16) }
{
    let registers = fetch1(m, i + 1);
    Fields {
        opcode: m[i],
        dst: registers % 16,
        src: registers / 16,
        off: fetch2(m, i + 2),
        imm: fetch(m, i) / 4294967296,
    }
}

// The instruction that the eight bytes at i are. Bytes that don't lie wholly in m are none.
pub fn decode(m: &[u8], i: usize) -> Instruction
    ensures { result ≡ cond (nat_le (i + 8) (length m.now)) (defined.decode m.now i) Instruction.NoInstruction }
{
    if m.len() < 8 || m.len() - 8 < i {
        return Instruction::NoInstruction;
    }
    match fields_at(m, i).meaning() {
        Some(instruction) => instruction,
        None => Instruction::NoInstruction,
    }
}

// The line of the table of operations for a code: the high four bits of the opcode.
pub fn operation_of(code: u8) -> Option<Operation>
    ensures { Found code operations result }
{
    match code {
        0 => Some(Operation::Add),
        1 => Some(Operation::Sub),
        2 => Some(Operation::Mul),
        3 => Some(Operation::Div),
        4 => Some(Operation::Or),
        5 => Some(Operation::And),
        6 => Some(Operation::Lsh),
        7 => Some(Operation::Rsh),
        9 => Some(Operation::Mod),
        10 => Some(Operation::Xor),
        11 => Some(Operation::Mov),
        12 => Some(Operation::Arsh),
        _ => None,
    }
}

pub fn comparison_of(code: u8) -> Option<Comparison>
    ensures { Found code comparisons result }
{
    match code {
        1 => Some(Comparison::Eq),
        2 => Some(Comparison::Gt),
        3 => Some(Comparison::Ge),
        4 => Some(Comparison::Set),
        5 => Some(Comparison::Ne),
        6 => Some(Comparison::Sgt),
        7 => Some(Comparison::Sge),
        10 => Some(Comparison::Lt),
        11 => Some(Comparison::Le),
        12 => Some(Comparison::Slt),
        13 => Some(Comparison::Sle),
        _ => None,
    }
}

// Kept: a function for each of the three tables, as docs/MACHINE.md, section 4, has them: which opcodes stand in them is all that they say.
fn size_of_load(opcode: u8) -> Option<Size>
    ensures { Found opcode loads result }
{
    match opcode {
        0x71 => Some(Size::One),
        0x69 => Some(Size::Two),
        0x61 => Some(Size::Four),
        0x79 => Some(Size::Eight),
        _ => None,
    }
}

fn size_of_store_of_imm(opcode: u8) -> Option<Size>
    ensures { Found opcode stores_of_imm result }
{
    match opcode {
        0x72 => Some(Size::One),
        0x6a => Some(Size::Two),
        0x62 => Some(Size::Four),
        0x7a => Some(Size::Eight),
        _ => None,
    }
}

fn size_of_store_of_src(opcode: u8) -> Option<Size>
    ensures { Found opcode stores_of_src result }
{
    match opcode {
        0x73 => Some(Size::One),
        0x6b => Some(Size::Two),
        0x63 => Some(Size::Four),
        0x7b => Some(Size::Eight),
        _ => None,
    }
}

// None: the eight bytes are no instruction.
impl Fields {
    // Where a register is above 10, nothing else is looked at.
    fn meaning(self) -> Option<Instruction>
        ensures { or_none result ≡ defined.meaning self }
    {
        if 10 < self.dst || 10 < self.src {
            return None;
        }
        self.by_class()
    }

    // Of the classes that have two widths the odd ones are the wide ones.
    fn width(self) -> Width
        ensures { result ≡ cond (self.opcode % 2 == 1) Width.Long Width.Short }
    {
        if self.opcode % 2 == 1 {
            Width::Long
        } else {
            Width::Short
        }
    }

    // Both widths come to one call, so that the tables of a class are compiled once. Classes 5 and 6 are what is left.
    fn by_class(self) -> Option<Instruction>
        ensures { or_none result ≡ defined.by_class self }
    {
        match self.opcode % 8 {
            4 | 7 => self.arithmetic(self.width()),
            1 => self.load(),
            2 => self.store_of_imm(),
            3 => self.store_of_src(),
            0 => None,
            _ => self.jump(self.width()),
        }
    }

    // Bit 3 of the opcode says what the second operand is, and which field is unused.
    fn operand(self) -> Option<Operand>
        ensures { IsOperand self result }
    {
        if self.opcode / 8 % 2 == 0 {
            if self.src != 0 {
                return None;
            }
            return Some(Operand::Immediate(extend::<W32>(self.imm)));
        }
        if self.imm != 0 {
            return None;
        }
        Some(Operand::Register(self.src))
    }

    fn arithmetic(self, width: Width) -> Option<Instruction>
        ensures { or_none result ≡ defined.arithmetic width self }
    {
        let dst = self.dst;
        if self.off != 0 {
            return None;
        }
        if self.opcode / 16 == 8 {
            return self.neg(width);
        }
        let operation = operation_of(self.opcode / 16)?;
        let operand = self.operand()?;
        Some(Instruction::Alu {
            width,
            operation,
            dst,
            operand,
        })
    }

    fn neg(self, width: Width) -> Option<Instruction>
        ensures { or_none result ≡ only (self.opcode / 8 % 2 == 0 && self.src == 0 && self.imm == 0) (Instruction.Neg width self.dst) }
    {
        let dst = self.dst;
        if self.opcode / 8 % 2 == 0 && self.src == 0 && self.imm == 0 {
            return Some(Instruction::Neg { width, dst });
        }
        None
    }

    // JA and EXIT are told by the whole opcode, since they have bit 3 clear.
    fn jump(self, width: Width) -> Option<Instruction>
        ensures { or_none result ≡ defined.jump width self }
    {
        let dst = self.dst;
        if self.opcode == 0x05 {
            return self.always();
        }
        if self.opcode == 0x95 {
            return self.exit();
        }
        let comparison = comparison_of(self.opcode / 16)?;
        let operand = self.operand()?;
        Some(Instruction::Jump {
            width,
            comparison,
            dst,
            operand,
            off: extend::<W16>(self.off),
        })
    }

    fn always(self) -> Option<Instruction>
        ensures { or_none result ≡ only (self.dst == 0 && self.src == 0 && self.imm == 0) (Instruction.Always (extend 16 self.off)) }
    {
        if self.dst == 0 && self.src == 0 && self.imm == 0 {
            return Some(Instruction::Always {
                off: extend::<W16>(self.off),
            });
        }
        None
    }

    fn exit(self) -> Option<Instruction>
        ensures { or_none result ≡ only (self.dst == 0 && self.src == 0 && self.imm == 0 && self.off == 0) Instruction.Exit }
    {
        if self.dst == 0 && self.src == 0 && self.imm == 0 && self.off == 0 {
            return Some(Instruction::Exit);
        }
        None
    }

    fn load(self) -> Option<Instruction>
        ensures { or_none result ≡ defined.load self }
    {
        let dst = self.dst;
        let src = self.src;
        let size = size_of_load(self.opcode)?;
        if self.imm != 0 {
            return None;
        }
        Some(Instruction::Load {
            size,
            dst,
            src,
            off: extend::<W16>(self.off),
        })
    }

    fn store_of_imm(self) -> Option<Instruction>
        ensures { or_none result ≡ defined.store_of_imm self }
    {
        let dst = self.dst;
        let size = size_of_store_of_imm(self.opcode)?;
        if self.src != 0 {
            return None;
        }
        Some(Instruction::Store {
            size,
            dst,
            off: extend::<W16>(self.off),
            operand: Operand::Immediate(extend::<W32>(self.imm)),
        })
    }

    fn store_of_src(self) -> Option<Instruction>
        ensures { or_none result ≡ defined.store_of_src self }
    {
        let dst = self.dst;
        let size = size_of_store_of_src(self.opcode)?;
        if self.imm != 0 {
            return None;
        }
        Some(Instruction::Store {
            size,
            dst,
            off: extend::<W16>(self.off),
            operand: Operand::Register(self.src),
        })
    }
}
