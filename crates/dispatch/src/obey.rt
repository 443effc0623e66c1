// One instruction obeyed: a match over the 108 opcodes in parts, each the default arm of the one before, of which the compiler makes one
// jump table. A register is read in the arm that wants it, so that no arm waits for what another one reads. Printed by tools/obey.
ghost use Rattle.std.specs.Prelude.{◌<◌, ◌++◌};
ghost use Rattle.machine.specs.Ground.{world_of};
ghost use Rattle.machine.specs.Instruction.{meaning};
ghost use Rattle.machine.specs.Machine.{obey as obeyed};
ghost use Rattle.dispatch.specs.Represent.{LeadsOn};
ghost use Rattle.dispatch.specs.Opcodes.{NoneOf, of_obey, of_calculate, of_calculate_more};

use crate::answer::{Next, Point};
use crate::arithmetic::{move_immediate, move_register, negate, put_immediate, put_register};
use crate::jumps::{exit, jump_always, jump_immediate, jump_register};
use crate::memory::{load_into, store_immediate, store_register};
use machine::instruction::{Fields, Size};
use machine::memory::Ground;
use word::arithmetic::{add, and, arsh, div, lsh, modulo, mov, mul, neg, or, rsh, sub, xor};
use word::order::{eq, ge, gt, le, lt, ne, set, sge, sgt, sle, slt};
use word::sign::extend;
use word::width::{W32, W64};

// Loads and stores.
fn access(ground: Ground, f: Fields, at: Point, regs: &mut [u64; 16], stack: &mut [u8]) -> Next
    requires registers { (f.dst < 16) × (f.src < 16) }
    requires others { NoneOf (of_calculate_more ++ of_calculate ++ of_obey) f.opcode }
    ensures { LeadsOn result regs.old regs.new stack.old stack.new at.live at.pc (λ t. obeyed (world_of ground.entry) t (meaning f)) }
{
    let i = f.dst as usize;
    let j = f.src as usize;
    let x = extend::<W32>(f.imm);
    match f.opcode {
        0x61 => load_into(ground, Size::Four, regs[j], f, at, regs, stack),
        0x69 => load_into(ground, Size::Two, regs[j], f, at, regs, stack),
        0x71 => load_into(ground, Size::One, regs[j], f, at, regs, stack),
        0x79 => load_into(ground, Size::Eight, regs[j], f, at, regs, stack),
        0x62 => store_immediate(ground.s, Size::Four, x, regs[i], f, at, stack),
        0x6a => store_immediate(ground.s, Size::Two, x, regs[i], f, at, stack),
        0x72 => store_immediate(ground.s, Size::One, x, regs[i], f, at, stack),
        0x7a => store_immediate(ground.s, Size::Eight, x, regs[i], f, at, stack),
        0x63 => store_register(ground.s, Size::Four, regs[j], regs[i], f, at, stack),
        0x6b => store_register(ground.s, Size::Two, regs[j], regs[i], f, at, stack),
        0x73 => store_register(ground.s, Size::One, regs[j], regs[i], f, at, stack),
        0x7b => store_register(ground.s, Size::Eight, regs[j], regs[i], f, at, stack),
        _ => Next::Stop,
    }
}

// Arithmetic, LSH to ARSH.
fn calculate_more(
    ground: Ground,
    f: Fields,
    at: Point,
    regs: &mut [u64; 16],
    stack: &mut [u8],
) -> Next
    requires registers { (f.dst < 16) × (f.src < 16) }
    requires others { NoneOf (of_calculate ++ of_obey) f.opcode }
    ensures { LeadsOn result regs.old regs.new stack.old stack.new at.live at.pc (λ t. obeyed (world_of ground.entry) t (meaning f)) }
{
    let i = f.dst as usize;
    let j = f.src as usize;
    let x = extend::<W32>(f.imm);
    match f.opcode {
        0x64 => put_immediate(lsh::<W32>(regs[i], x), f, at, regs),
        0x67 => put_immediate(lsh::<W64>(regs[i], x), f, at, regs),
        0x6c => put_register(lsh::<W32>(regs[i], regs[j]), f, at, regs),
        0x6f => put_register(lsh::<W64>(regs[i], regs[j]), f, at, regs),
        0x74 => put_immediate(rsh::<W32>(regs[i], x), f, at, regs),
        0x77 => put_immediate(rsh::<W64>(regs[i], x), f, at, regs),
        0x7c => put_register(rsh::<W32>(regs[i], regs[j]), f, at, regs),
        0x7f => put_register(rsh::<W64>(regs[i], regs[j]), f, at, regs),
        0x84 => negate(neg::<W32>(regs[i]), f, at, regs),
        0x87 => negate(neg::<W64>(regs[i]), f, at, regs),
        0x94 => put_immediate(modulo::<W32>(regs[i], x), f, at, regs),
        0x97 => put_immediate(modulo::<W64>(regs[i], x), f, at, regs),
        0x9c => put_register(modulo::<W32>(regs[i], regs[j]), f, at, regs),
        0x9f => put_register(modulo::<W64>(regs[i], regs[j]), f, at, regs),
        0xa4 => put_immediate(xor::<W32>(regs[i], x), f, at, regs),
        0xa7 => put_immediate(xor::<W64>(regs[i], x), f, at, regs),
        0xac => put_register(xor::<W32>(regs[i], regs[j]), f, at, regs),
        0xaf => put_register(xor::<W64>(regs[i], regs[j]), f, at, regs),
        0xb4 => move_immediate(mov::<W32>(x), f, at, regs),
        0xb7 => move_immediate(mov::<W64>(x), f, at, regs),
        0xbc => move_register(mov::<W32>(regs[j]), f, at, regs),
        0xbf => move_register(mov::<W64>(regs[j]), f, at, regs),
        0xc4 => put_immediate(arsh::<W32>(regs[i], x), f, at, regs),
        0xc7 => put_immediate(arsh::<W64>(regs[i], x), f, at, regs),
        0xcc => put_register(arsh::<W32>(regs[i], regs[j]), f, at, regs),
        0xcf => put_register(arsh::<W64>(regs[i], regs[j]), f, at, regs),
        _ => access(ground, f, at, regs, stack),
    }
}

// Arithmetic, ADD to AND.
fn calculate(ground: Ground, f: Fields, at: Point, regs: &mut [u64; 16], stack: &mut [u8]) -> Next
    requires registers { (f.dst < 16) × (f.src < 16) }
    requires others { NoneOf (of_obey) f.opcode }
    ensures { LeadsOn result regs.old regs.new stack.old stack.new at.live at.pc (λ t. obeyed (world_of ground.entry) t (meaning f)) }
{
    let i = f.dst as usize;
    let j = f.src as usize;
    let x = extend::<W32>(f.imm);
    match f.opcode {
        0x04 => put_immediate(add::<W32>(regs[i], x), f, at, regs),
        0x07 => put_immediate(add::<W64>(regs[i], x), f, at, regs),
        0x0c => put_register(add::<W32>(regs[i], regs[j]), f, at, regs),
        0x0f => put_register(add::<W64>(regs[i], regs[j]), f, at, regs),
        0x14 => put_immediate(sub::<W32>(regs[i], x), f, at, regs),
        0x17 => put_immediate(sub::<W64>(regs[i], x), f, at, regs),
        0x1c => put_register(sub::<W32>(regs[i], regs[j]), f, at, regs),
        0x1f => put_register(sub::<W64>(regs[i], regs[j]), f, at, regs),
        0x24 => put_immediate(mul::<W32>(regs[i], x), f, at, regs),
        0x27 => put_immediate(mul::<W64>(regs[i], x), f, at, regs),
        0x2c => put_register(mul::<W32>(regs[i], regs[j]), f, at, regs),
        0x2f => put_register(mul::<W64>(regs[i], regs[j]), f, at, regs),
        0x34 => put_immediate(div::<W32>(regs[i], x), f, at, regs),
        0x37 => put_immediate(div::<W64>(regs[i], x), f, at, regs),
        0x3c => put_register(div::<W32>(regs[i], regs[j]), f, at, regs),
        0x3f => put_register(div::<W64>(regs[i], regs[j]), f, at, regs),
        0x44 => put_immediate(or::<W32>(regs[i], x), f, at, regs),
        0x47 => put_immediate(or::<W64>(regs[i], x), f, at, regs),
        0x4c => put_register(or::<W32>(regs[i], regs[j]), f, at, regs),
        0x4f => put_register(or::<W64>(regs[i], regs[j]), f, at, regs),
        0x54 => put_immediate(and::<W32>(regs[i], x), f, at, regs),
        0x57 => put_immediate(and::<W64>(regs[i], x), f, at, regs),
        0x5c => put_register(and::<W32>(regs[i], regs[j]), f, at, regs),
        0x5f => put_register(and::<W64>(regs[i], regs[j]), f, at, regs),
        _ => calculate_more(ground, f, at, regs, stack),
    }
}

// Jumps and EXIT.
pub fn obey(ground: Ground, f: Fields, at: Point, regs: &mut [u64; 16], stack: &mut [u8]) -> Next
    requires { (f.dst < 16) × (f.src < 16) }
    ensures { LeadsOn result regs.old regs.new stack.old stack.new at.live at.pc (λ t. obeyed (world_of ground.entry) t (meaning f)) }
{
    let i = f.dst as usize;
    let j = f.src as usize;
    let x = extend::<W32>(f.imm);
    match f.opcode {
        0x05 => jump_always(f, at),
        0x95 => exit(regs[0], f, at.live),
        0x15 => jump_immediate(eq::<W64>(regs[i], x), f, at),
        0x16 => jump_immediate(eq::<W32>(regs[i], x), f, at),
        0x1d => jump_register(eq::<W64>(regs[i], regs[j]), f, at),
        0x1e => jump_register(eq::<W32>(regs[i], regs[j]), f, at),
        0x25 => jump_immediate(gt::<W64>(regs[i], x), f, at),
        0x26 => jump_immediate(gt::<W32>(regs[i], x), f, at),
        0x2d => jump_register(gt::<W64>(regs[i], regs[j]), f, at),
        0x2e => jump_register(gt::<W32>(regs[i], regs[j]), f, at),
        0x35 => jump_immediate(ge::<W64>(regs[i], x), f, at),
        0x36 => jump_immediate(ge::<W32>(regs[i], x), f, at),
        0x3d => jump_register(ge::<W64>(regs[i], regs[j]), f, at),
        0x3e => jump_register(ge::<W32>(regs[i], regs[j]), f, at),
        0x45 => jump_immediate(set::<W64>(regs[i], x), f, at),
        0x46 => jump_immediate(set::<W32>(regs[i], x), f, at),
        0x4d => jump_register(set::<W64>(regs[i], regs[j]), f, at),
        0x4e => jump_register(set::<W32>(regs[i], regs[j]), f, at),
        0x55 => jump_immediate(ne::<W64>(regs[i], x), f, at),
        0x56 => jump_immediate(ne::<W32>(regs[i], x), f, at),
        0x5d => jump_register(ne::<W64>(regs[i], regs[j]), f, at),
        0x5e => jump_register(ne::<W32>(regs[i], regs[j]), f, at),
        0x65 => jump_immediate(sgt::<W64>(regs[i], x), f, at),
        0x66 => jump_immediate(sgt::<W32>(regs[i], x), f, at),
        0x6d => jump_register(sgt::<W64>(regs[i], regs[j]), f, at),
        0x6e => jump_register(sgt::<W32>(regs[i], regs[j]), f, at),
        0x75 => jump_immediate(sge::<W64>(regs[i], x), f, at),
        0x76 => jump_immediate(sge::<W32>(regs[i], x), f, at),
        0x7d => jump_register(sge::<W64>(regs[i], regs[j]), f, at),
        0x7e => jump_register(sge::<W32>(regs[i], regs[j]), f, at),
        0xa5 => jump_immediate(lt::<W64>(regs[i], x), f, at),
        0xa6 => jump_immediate(lt::<W32>(regs[i], x), f, at),
        0xad => jump_register(lt::<W64>(regs[i], regs[j]), f, at),
        0xae => jump_register(lt::<W32>(regs[i], regs[j]), f, at),
        0xb5 => jump_immediate(le::<W64>(regs[i], x), f, at),
        0xb6 => jump_immediate(le::<W32>(regs[i], x), f, at),
        0xbd => jump_register(le::<W64>(regs[i], regs[j]), f, at),
        0xbe => jump_register(le::<W32>(regs[i], regs[j]), f, at),
        0xc5 => jump_immediate(slt::<W64>(regs[i], x), f, at),
        0xc6 => jump_immediate(slt::<W32>(regs[i], x), f, at),
        0xcd => jump_register(slt::<W64>(regs[i], regs[j]), f, at),
        0xce => jump_register(slt::<W32>(regs[i], regs[j]), f, at),
        0xd5 => jump_immediate(sle::<W64>(regs[i], x), f, at),
        0xd6 => jump_immediate(sle::<W32>(regs[i], x), f, at),
        0xdd => jump_register(sle::<W64>(regs[i], regs[j]), f, at),
        0xde => jump_register(sle::<W32>(regs[i], regs[j]), f, at),
        _ => calculate(ground, f, at, regs, stack),
    }
}
