// The formats of classes 7 and 4: the tests, then dst becomes the value that is handed in.
// Each contract leaves the stack open, since none of these functions sees it.
// Kept: a format for imm and one for src, here, in jumps and in memory: one over an operand would ask again what the opcode has told.
ghost use Rattle.std.specs.Prelude.{◌≡◌, ◌<◌, true, false, not, ◌&&◌, ◌||◌, length, ◌==◌, nat_le};
ghost use Rattle.machine.specs.Machine.{goes, put};
ghost use Rattle.dispatch.specs.Represent.{is_set, guarded, Puts, Kept};

use crate::answer::{Next, Point, has};
use machine::instruction::Fields;

// dst, which may have been unset, becomes v.
pub fn keep(v: u64, dst: u64, at: Point, regs: &mut [u64; 16]) -> Next
    requires { dst < 10 }
    ensures { Puts result regs.old regs.new at.live at.pc (λ t. goes (put t dst v)) }
{
    let i = dst as usize;
    regs[i] = v;
    Next::Go {
        pc: at.pc + 1,
        live: at.live | (1 << dst),
    }
}

// dst, which is set, becomes v: the mask stays, which spares two instructions.
fn change(v: u64, dst: u64, at: Point, regs: &mut [u64; 16]) -> Next
    requires no_r10 { dst < 10 }
    requires was_set { is_set at.live dst ≡ true }
    ensures { Puts result regs.old regs.new at.live at.pc (λ t. goes (put t dst v)) }
{
    let i = dst as usize;
    regs[i] = v;
    Next::Go {
        pc: at.pc + 1,
        live: at.live,
    }
}

// An operation on dst and imm.
pub fn put_immediate(v: u64, f: Fields, at: Point, regs: &mut [u64; 16]) -> Next
    requires { f.dst < 16 }
    ensures { Puts result regs.old regs.new at.live at.pc (λ t. guarded (f.off == 0 && f.src == 0) (nat_le 10 f.dst) (not (is_set at.live f.dst)) (goes (put t f.dst v))) }
{
    if !((f.off == 0) & (f.src == 0)) {
        return Next::Stop;
    }
    if 10 <= f.dst {
        return Next::Stop;
    }
    if !has(at.live, f.dst) {
        return Next::Stop;
    }
    change(v, f.dst, at, regs)
}

// An operation on dst and src.
pub fn put_register(v: u64, f: Fields, at: Point, regs: &mut [u64; 16]) -> Next
    requires { (f.dst < 16) × (f.src < 16) }
    ensures { Puts result regs.old regs.new at.live at.pc (λ t. guarded (f.off == 0 && f.imm == 0) (nat_le 10 f.dst) (not (is_set at.live f.dst) || not (is_set at.live f.src)) (goes (put t f.dst v))) }
{
    if !((f.off == 0) & (f.imm == 0)) {
        return Next::Stop;
    }
    if 10 <= f.dst {
        return Next::Stop;
    }
    if !has(at.live, f.dst) {
        return Next::Stop;
    }
    if !has(at.live, f.src) {
        return Next::Stop;
    }
    change(v, f.dst, at, regs)
}

// MOV of imm: dst is not read.
pub fn move_immediate(v: u64, f: Fields, at: Point, regs: &mut [u64; 16]) -> Next
    requires { f.dst < 16 }
    ensures { Puts result regs.old regs.new at.live at.pc (λ t. guarded (f.off == 0 && f.src == 0) (nat_le 10 f.dst) false (goes (put t f.dst v))) }
{
    if !((f.off == 0) & (f.src == 0)) {
        return Next::Stop;
    }
    if 10 <= f.dst {
        return Next::Stop;
    }
    keep(v, f.dst, at, regs)
}

// MOV of src: dst is not read.
pub fn move_register(v: u64, f: Fields, at: Point, regs: &mut [u64; 16]) -> Next
    requires { (f.dst < 16) × (f.src < 16) }
    ensures { Puts result regs.old regs.new at.live at.pc (λ t. guarded (f.off == 0 && f.imm == 0) (nat_le 10 f.dst) (not (is_set at.live f.src)) (goes (put t f.dst v))) }
{
    if !((f.off == 0) & (f.imm == 0)) {
        return Next::Stop;
    }
    if 10 <= f.dst {
        return Next::Stop;
    }
    if !has(at.live, f.src) {
        return Next::Stop;
    }
    keep(v, f.dst, at, regs)
}

// NEG of dst.
pub fn negate(v: u64, f: Fields, at: Point, regs: &mut [u64; 16]) -> Next
    requires { f.dst < 16 }
    ensures { Puts result regs.old regs.new at.live at.pc (λ t. guarded (f.off == 0 && (f.src == 0 && f.imm == 0)) (nat_le 10 f.dst) (not (is_set at.live f.dst)) (goes (put t f.dst v))) }
{
    if !((f.off == 0) & ((f.src == 0) & (f.imm == 0))) {
        return Next::Stop;
    }
    if 10 <= f.dst {
        return Next::Stop;
    }
    if !has(at.live, f.dst) {
        return Next::Stop;
    }
    change(v, f.dst, at, regs)
}
