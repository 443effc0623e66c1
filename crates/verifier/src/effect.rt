// What an instruction that is no jump does to a state in scratch memory: one register is read at a time, and none is copied.
#![tactic(auto, unfolding(crate::specs::Outcome::effect_in, crate::specs::Outcome::unusable, crate::specs::Outcome::is_unset, waiting::specs::State::held_in, waiting::specs::State::of_kind, analysis::specs::Effects::put, analysis::specs::Effects::is_never, analysis::specs::Effects::is_mixed, analysis::specs::Effects::reading, analysis::specs::Effects::reading_both, analysis::specs::Effects::calculate, analysis::specs::Effects::sum, analysis::specs::Effects::difference, analysis::specs::Effects::load, analysis::specs::Effects::limit, analysis::specs::Effects::store, analysis::specs::Effects::store_at, analysis::specs::Effects::exit, analysis::specs::Values::operand_of, machine::specs::Machine::bits, machine::specs::Machine::bytes))]

ghost use Rattle.std.specs.Prelude.{◌≡◌, cond, ℕ, ◌*◌, ◌-◌, ◌^◌};
ghost use Rattle.word.specs.Word.{alu};
ghost use Rattle.number.specs.Computed as number;
ghost use Rattle.number.specs.Sharpen.{exact, loaded};
ghost use Rattle.machine.specs.Machine as machine;
ghost use Rattle.analysis.specs.Effects as defined;
ghost use Rattle.analysis.specs.Values.{value_of, operand_of};
ghost use Rattle.waiting.specs.State.{held_in, IsSingle, AreSingle};
ghost use Rattle.waiting.specs.View.{facts_of};
ghost use Rattle.verifier.specs.Outcome as outcome;
ghost use Rattle.verifier.specs.Outcome.{effect_in};

use analysis::{Effect, Reason, Value};
use calculator::operation;
use calculator::sharpen::{exactly, fits, load};
use machine::instruction::{Instruction, Operand, Size, Width};
use machine::memory::byte_count;
use number::Number;
use waiting::state::State;
use waiting::value::{Held, Kind};
use word::width::{W32, W64};
use word::{Operation, by_name};

// A register gets a value, nothing changes, or the path ends. An instruction that may do none of these is refused, by an Err.
#[derive(Clone, Copy)]
pub enum Outcome {
    Put { dst: u64, held: Held },
    Keep,
    Stop,
}

pub fn operand_held(state: State, s: Operand) -> Held
    ensures { held_in result ≡ operand_of (facts_of state.entry) s }
{
    match s {
        Operand::Immediate(n) => Held::plain(exactly(n)),
        Operand::Register(r) => state.register(r),
    }
}

// r10 is not written.
fn put(dst: u64, held: Held) -> Result<Outcome, Reason>
    ensures { effect_in result ≡ defined.put dst (held_in held) }
{
    if dst == 10 {
        return Err(Reason::WritesR10);
    }
    Ok(Outcome::Put { dst, held })
}

// Why values of these kinds may not be used: unset comes before address.
pub fn unusable(x: Kind, y: Kind) -> Reason
    ensures { result ≡ outcome.unusable x y }
{
    match (x, y) {
        (Kind::Unset, _) | (_, Kind::Unset) => Reason::ReadsUnset,
        _ => Reason::LeaksAddress,
    }
}

fn copied(d: u64, y: Held) -> Result<Outcome, Reason>
    ensures { effect_in result ≡ defined.reading (held_in y) (defined.put d (held_in y)) }
{
    match y.kind {
        Kind::Unset => Err(Reason::ReadsUnset),
        Kind::Mixed => Err(Reason::LeaksAddress),
        _ => put(d, y),
    }
}

// Plain numbers only.
fn calculated(width: Width, op: Operation, d: u64, x: Held, y: Held) -> Result<Outcome, Reason>
    ensures { effect_in result ≡ defined.reading_both (held_in x) (held_in y) (defined.calculate (machine.bits width) op d (held_in x) (held_in y)) }
{
    match (x.kind, y.kind) {
        (Kind::Plain, Kind::Plain) => put(d, Held::plain(computed(width, op, x.number, y.number))),
        (u, v) => Err(unusable(u, v)),
    }
}

fn computed(width: Width, op: Operation, a: Number, b: Number) -> Number
    ensures { result ≡ number.computed (machine.bits width) op a b }
{
    match width {
        Width::Long => operation::alu::<W64>(op, a, b),
        Width::Short => operation::alu::<W32>(op, a, b),
    }
}

// A number may be added to an address, in either order.
fn added(d: u64, x: Held, y: Held) -> Result<Outcome, Reason>
    ensures { effect_in result ≡ defined.reading_both (held_in x) (held_in y) (defined.sum d (held_in x) (held_in y)) }
{
    match (x.kind, y.kind) {
        (Kind::Unset, _) | (_, Kind::Unset) => Err(Reason::ReadsUnset),
        (Kind::Mixed, _) | (_, Kind::Mixed) => Err(Reason::LeaksAddress),
        (kind, Kind::Plain) => put(
            d,
            Held {
                kind,
                number: operation::alu::<W64>(Operation::Add, x.number, y.number),
            },
        ),
        (Kind::Plain, kind) => put(
            d,
            Held {
                kind,
                number: operation::alu::<W64>(Operation::Add, y.number, x.number),
            },
        ),
        _ => Err(Reason::LeaksAddress),
    }
}

// And subtracted from it.
fn subtracted(d: u64, x: Held, y: Held) -> Result<Outcome, Reason>
    ensures { effect_in result ≡ defined.reading_both (held_in x) (held_in y) (defined.difference d (held_in x) (held_in y)) }
{
    match (x.kind, y.kind) {
        (Kind::Unset, _) | (_, Kind::Unset) => Err(Reason::ReadsUnset),
        (Kind::Mixed, _) | (_, Kind::Mixed) => Err(Reason::LeaksAddress),
        (kind, Kind::Plain) => put(
            d,
            Held {
                kind,
                number: operation::alu::<W64>(Operation::Sub, x.number, y.number),
            },
        ),
        _ => Err(Reason::LeaksAddress),
    }
}

fn operand_single(state: State, s: Operand) -> Option<u64>
    ensures { IsSingle result (operand_of (facts_of state.entry) s) }
{
    match s {
        Operand::Immediate(n) => Some(n),
        Operand::Register(r) => state.single(r),
    }
}

pub fn singles(state: State, d: u64, s: Operand) -> Option<(u64, u64)>
    ensures { AreSingle result (value_of (facts_of state.entry) d) (operand_of (facts_of state.entry) s) }
{
    let first = state.single(d)?;
    let second = operand_single(state, s)?;
    Some((first, second))
}

fn word_of(width: Width, op: Operation, x: u64, y: u64) -> u64
    ensures { result ≡ alu (machine.bits width) op x y }
{
    match width {
        Width::Long => by_name::alu::<W64>(op, x, y),
        Width::Short => by_name::alu::<W32>(op, x, y),
    }
}

// Of two known numbers nothing but the words is calculated.
fn arithmetic(
    state: State,
    width: Width,
    op: Operation,
    d: u64,
    s: Operand,
) -> Result<Outcome, Reason>
    ensures { effect_in result ≡ defined.arithmetic (defined.role width op) (machine.bits width) op d (value_of (facts_of state.entry) d) (operand_of (facts_of state.entry) s) }
{
    match singles(state, d, s) {
        Some((x, y)) => put(d, Held::plain(exactly(word_of(width, op, x, y)))),
        None => arithmetic_held(state, width, op, d, s),
    }
}

// MOV does not read dst: of 64 bits the operand is copied, of 32 it is cut.
fn arithmetic_held(
    state: State,
    width: Width,
    op: Operation,
    d: u64,
    s: Operand,
) -> Result<Outcome, Reason>
    ensures { effect_in result ≡ defined.arithmetic (defined.role width op) (machine.bits width) op d (value_of (facts_of state.entry) d) (operand_of (facts_of state.entry) s) }
{
    let y = operand_held(state, s);
    match width {
        Width::Long => match op {
            Operation::Mov => copied(d, y),
            Operation::Add => added(d, state.register(d), y),
            Operation::Sub => subtracted(d, state.register(d), y),
            _ => calculated(width, op, d, state.register(d), y),
        },
        Width::Short => match op {
            Operation::Mov => calculated(width, op, d, y, y),
            _ => calculated(width, op, d, state.register(d), y),
        },
    }
}

// The greatest number of as many bytes.
fn last(size: Size) -> u64
    ensures { result ≡ 2 ^ (8 * machine.bytes size) - 1 }
{
    match size {
        Size::One => 0xff,
        Size::Two => 0xffff,
        Size::Four => 0xffffffff,
        Size::Eight => 0xffffffffffffffff,
    }
}

// The bytes at an offset from an address lie below `end`.
fn inside(a: Number, off: u64, size: Size, end: u64) -> bool
    ensures { result ≡ number.fits (number.computed 64 Operation.Add a (exact off)) (machine.bytes size) end }
{
    let moved = operation::alu::<W64>(Operation::Add, a, exactly(off));
    fits(moved, byte_count(size) as u64, end)
}

fn loaded_from(end: u64, size: Size, d: u64, off: u64, a: Number) -> Result<Outcome, Reason>
    ensures { effect_in result ≡ cond (number.fits (number.computed 64 Operation.Add a (exact off)) (machine.bytes size) end)
        (defined.put d (Value.Plain (loaded (machine.bytes size)))) (Effect.Refuse Reason.Outside) }
{
    if inside(a, off, size, end) {
        return put(d, Held::plain(load(last(size))));
    }
    Err(Reason::Outside)
}

fn loaded(rlen: u64, size: Size, d: u64, off: u64, x: Held) -> Result<Outcome, Reason>
    ensures { effect_in result ≡ defined.reading (held_in x) (defined.load rlen (machine.bytes size) d off (held_in x)) }
{
    match x.kind {
        Kind::Unset => Err(Reason::ReadsUnset),
        Kind::Mixed => Err(Reason::LeaksAddress),
        Kind::Plain => Err(Reason::Outside),
        Kind::Record => loaded_from(rlen, size, d, off, x.number),
        Kind::Stack => loaded_from(512, size, d, off, x.number),
    }
}

fn stored(size: Size, off: u64, x: Held, y: Held) -> Result<Outcome, Reason>
    ensures { effect_in result ≡ defined.reading_both (held_in x) (held_in y) (defined.store (machine.bytes size) off (held_in x) (held_in y)) }
{
    match (x.kind, y.kind) {
        (Kind::Stack, Kind::Plain) if inside(x.number, off, size, 512) => Ok(Outcome::Keep),
        (Kind::Plain | Kind::Record | Kind::Stack, Kind::Plain) => Err(Reason::Outside),
        (u, v) => Err(unusable(u, v)),
    }
}

fn exited(x: Held) -> Result<Outcome, Reason>
    ensures { effect_in result ≡ defined.reading (held_in x) (defined.exit (held_in x)) }
{
    match x.kind {
        Kind::Unset => Err(Reason::ReadsUnset),
        Kind::Plain => Ok(Outcome::Stop),
        _ => Err(Reason::LeaksAddress),
    }
}

// What an instruction does to a state; a jump counts as none.
pub fn outcome_of(state: State, rlen: u64, ins: Instruction) -> Result<Outcome, Reason>
    ensures { (i : ℕ) → effect_in result ≡ defined.effect rlen i (facts_of state.entry) (outcome.without_jumps ins) }
{
    match ins {
        Instruction::Alu {
            width,
            operation,
            dst,
            operand,
        } => arithmetic(state, width, operation, dst, operand),
        Instruction::Neg { width, dst } => {
            let x = state.register(dst);
            calculated(width, Operation::Neg, dst, x, x)
        }
        Instruction::Exit => exited(state.register(0)),
        Instruction::Load {
            size,
            dst,
            src,
            off,
        } => loaded(rlen, size, dst, off, state.register(src)),
        Instruction::Store {
            size,
            dst,
            off,
            operand,
        } => stored(size, off, state.register(dst), operand_held(state, operand)),
        _ => Err(Reason::NoCode),
    }
}
