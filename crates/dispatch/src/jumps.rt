// The formats of classes 5 and 6: the tests, then the next index, or the verdict.
// Each contract leaves registers and stack open, since none of these functions sees them.
ghost use Rattle.std.specs.Prelude.{ℕ, ◌<◌, true, false, not, ◌&&◌, ◌||◌, ◌==◌};
ghost use Rattle.word.specs.Word.{extend};
ghost use Rattle.machine.specs.Machine.{goes, ends, jumped};
ghost use Rattle.dispatch.specs.Represent.{is_set, guarded, Turns};

use crate::answer::{Next, Point, has};
use machine::instruction::Fields;
use word::sign::extend;
use word::width::W16;

// The index after a jump, taken or not. A taken one has its own return: that is one instruction less.
fn go(taken: bool, off: u64, at: Point) -> Next
    ensures { Turns result at.live at.pc (λ t. goes (jumped taken t (extend 16 off))) }
{
    if taken {
        return Next::Go {
            pc: (at.pc + 1).wrapping_add(extend::<W16>(off)),
            live: at.live,
        };
    }
    Next::Go {
        pc: at.pc + 1,
        live: at.live,
    }
}

// A jump that compares dst with imm.
pub fn jump_immediate(taken: bool, f: Fields, at: Point) -> Next
    requires { f.dst < 16 }
    ensures { Turns result at.live at.pc (λ t. guarded (f.src == 0) false (not (is_set at.live f.dst)) (goes (jumped taken t (extend 16 f.off)))) }
{
    if f.src != 0 {
        return Next::Stop;
    }
    if !has(at.live, f.dst) {
        return Next::Stop;
    }
    go(taken, f.off, at)
}

// A jump that compares dst with src.
pub fn jump_register(taken: bool, f: Fields, at: Point) -> Next
    requires { (f.dst < 16) × (f.src < 16) }
    ensures { Turns result at.live at.pc (λ t. guarded (f.imm == 0) false (not (is_set at.live f.dst) || not (is_set at.live f.src)) (goes (jumped taken t (extend 16 f.off)))) }
{
    if f.imm != 0 {
        return Next::Stop;
    }
    if !has(at.live, f.dst) {
        return Next::Stop;
    }
    if !has(at.live, f.src) {
        return Next::Stop;
    }
    go(taken, f.off, at)
}

// JA.
pub fn jump_always(f: Fields, at: Point) -> Next
    ensures { Turns result at.live at.pc (λ t. guarded (f.dst == 0 && f.src == 0 && f.imm == 0) false false (goes (jumped true t (extend 16 f.off)))) }
{
    if !((f.dst == 0) & (f.src == 0) & (f.imm == 0)) {
        return Next::Stop;
    }
    go(true, f.off, at)
}

// EXIT, with the value of r0.
pub fn exit(v: u64, f: Fields, live: u64) -> Next
    ensures { (pc : ℕ) → Turns result live pc (λ t. guarded (f.dst == 0 && f.src == 0 && f.imm == 0 && f.off == 0) false (not (is_set live 0)) (ends v)) }
{
    if !((f.dst == 0) & (f.src == 0) & (f.imm == 0) & (f.off == 0)) {
        return Next::Stop;
    }
    if !has(live, 0) {
        return Next::Stop;
    }
    Next::Exit(v)
}
