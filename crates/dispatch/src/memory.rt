// The formats of classes 1, 2 and 3: the tests, then the access, which `machine` tests and makes.
// A store's contract leaves the registers open, and the record, which no store touches.
ghost use Rattle.std.specs.Prelude.{◌≡◌, ℕ, ◌<◌, true, false, not, ◌||◌, List, length, ◌==◌, nat_le};
ghost use Rattle.word.specs.Word.{extend};
ghost use Rattle.machine.specs.Ground.{world_of};
ghost use Rattle.machine.specs.Machine.{address, loaded, after_load, after_store};
ghost use Rattle.dispatch.specs.Represent.{is_set, guarded, LeadsOn, Stores};

use crate::answer::{Next, Point, has};
use crate::arithmetic::keep;
use machine::instruction::{Fields, Size};
use machine::memory::{Ground, load, store};
use word::sign::extend;
use word::width::W16;

// LDX, with the value y of src.
pub fn load_into(
    ground: Ground,
    size: Size,
    y: u64,
    f: Fields,
    at: Point,
    regs: &mut [u64; 16],
    stack: &[u8],
) -> Next
    requires { (f.dst < 16) × (f.src < 16) }
    ensures { LeadsOn result regs.old regs.new stack.now stack.now at.live at.pc (λ t. guarded (f.imm == 0) (nat_le 10 f.dst) (not (is_set at.live f.src)) (after_load t f.dst (loaded (world_of ground.entry) stack.now (address y (extend 16 f.off)) size))) }
{
    if f.imm != 0 {
        return Next::Stop;
    }
    if 10 <= f.dst {
        return Next::Stop;
    }
    if !has(at.live, f.src) {
        return Next::Stop;
    }
    let a = y.wrapping_add(extend::<W16>(f.off));
    match load(ground, stack, a, size) {
        Some(v) => keep(v, f.dst, at, regs),
        None => Next::Stop,
    }
}

// The effect of a store of x, with the value y of dst.
fn store_at(s: u64, size: Size, x: u64, y: u64, off: u64, at: Point, stack: &mut [u8]) -> Next
    ensures { (rec : List ℕ) (P : ℕ) → Stores result stack.old stack.new at.live at.pc (λ t. after_store (record { rec = rec; P = P; S = s }) t (address y (extend 16 off)) size x) }
{
    let a = y.wrapping_add(extend::<W16>(off));
    if store(stack, s, a, size, x) {
        return Next::Go {
            pc: at.pc + 1,
            live: at.live,
        };
    }
    Next::Stop
}

// ST.
pub fn store_immediate(
    s: u64,
    size: Size,
    x: u64,
    y: u64,
    f: Fields,
    at: Point,
    stack: &mut [u8],
) -> Next
    requires { f.dst < 16 }
    ensures { (rec : List ℕ) (P : ℕ) → Stores result stack.old stack.new at.live at.pc (λ t. guarded (f.src == 0) false (not (is_set at.live f.dst)) (after_store (record { rec = rec; P = P; S = s }) t (address y (extend 16 f.off)) size x)) }
{
    if f.src != 0 {
        return Next::Stop;
    }
    if !has(at.live, f.dst) {
        return Next::Stop;
    }
    store_at(s, size, x, y, f.off, at, stack)
}

// STX.
pub fn store_register(
    s: u64,
    size: Size,
    x: u64,
    y: u64,
    f: Fields,
    at: Point,
    stack: &mut [u8],
) -> Next
    requires { (f.dst < 16) × (f.src < 16) }
    ensures { (rec : List ℕ) (P : ℕ) → Stores result stack.old stack.new at.live at.pc (λ t. guarded (f.imm == 0) false (not (is_set at.live f.dst) || not (is_set at.live f.src)) (after_store (record { rec = rec; P = P; S = s }) t (address y (extend 16 f.off)) size x)) }
{
    if f.imm != 0 {
        return Next::Stop;
    }
    if !has(at.live, f.dst) {
        return Next::Stop;
    }
    if !has(at.live, f.src) {
        return Next::Stop;
    }
    store_at(s, size, x, y, f.off, at, stack)
}
