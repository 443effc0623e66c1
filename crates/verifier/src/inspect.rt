// What `annotate` left at an index, for those who explain an answer: what is known of a register, and what the instruction does.
// Assumes nothing: of scratch memory that is too short, nothing is told.
ghost use Rattle.std.specs.Prelude.{◌≡◌, ◌+◌, ◌*◌, ◌≤◌, ◌/◌, length};
ghost use Rattle.analysis.specs.Effects as defined;
ghost use Rattle.analysis.specs.Form.{instruction};
ghost use Rattle.analysis.specs.Values.{value_of, operand_of};
ghost use Rattle.verifier.specs.Inspect.{known_of, deed_of};
ghost use Rattle.verifier.specs.Outcome.{effect_in};
ghost use Rattle.waiting.specs.Layout as layout;
ghost use Rattle.waiting.specs.Layout.{words, block_words};
ghost use Rattle.waiting.specs.State.{held_in, facts_at};
ghost use Rattle.waiting.specs.Store.{waiting_in};
ghost use Rattle.verifier.specs.Sending.{shortened};

use crate::effect::{Outcome, operand_held, outcome_of, unusable};
use crate::index::Index;
use crate::pass::target;
use crate::send::Branch;
use crate::ways::told;
use analysis::{Effect, Gone, Reason, Region, Value};
use machine::instruction::{Instruction, decode};
use waiting::BLOCK_WORDS;
use waiting::store::{state_at, waits_at};
use waiting::value::{Held, Kind};

#[tactic(auto, unfolding(waiting::specs::State::held_in, waiting::specs::State::of_kind))]
fn value_of(h: Held) -> Value
    ensures { result ≡ held_in h }
{
    let n = h.number;
    match h.kind {
        Kind::Unset => Value::Unusable(Gone::Never),
        Kind::Mixed => Value::Unusable(Gone::Mixed),
        Kind::Plain => Value::Plain(n),
        Kind::Record => Value::Address(Region::Record, n),
        Kind::Stack => Value::Address(Region::Stack, n),
    }
}

#[tactic(auto, unfolding(crate::specs::Outcome::effect_in))]
fn effect_of_outcome(outcome: Result<Outcome, Reason>) -> Effect
    ensures { result ≡ effect_in outcome }
{
    match outcome {
        Ok(Outcome::Put { dst, held }) => Effect::Put {
            dst,
            value: value_of(held),
        },
        Ok(Outcome::Keep) => Effect::Keep,
        Ok(Outcome::Stop) => Effect::Stop,
        Err(reason) => Effect::Refuse(reason),
    }
}

fn fork_of(m: &[u64], at: Index, b: Branch) -> Effect
    requires { block_words * at.n ≤ length m.now }
    ensures { result ≡ defined.reading_both (value_of (facts_at m.now (layout.state_of at.i)) b.dst) (operand_of (facts_at m.now (layout.state_of at.i)) b.operand)
        (defined.fork b.width b.comparison b.dst b.operand b.target (value_of (facts_at m.now (layout.state_of at.i)) b.dst) (operand_of (facts_at m.now (layout.state_of at.i)) b.operand)) }
{
    let state = state_at(m, at.i);
    let x = state.register(b.dst);
    let y = operand_held(state, b.operand);
    let (Kind::Plain, Kind::Plain) = (x.kind, y.kind) else {
        return Effect::Refuse(unusable(x.kind, y.kind));
    };
    let onward = told(b.width, b.comparison, false, x.number, y.number);
    let taken = told(b.width, b.comparison, true, x.number, y.number);
    Effect::Fork {
        dst: b.dst,
        operand: b.operand,
        onward,
        taken,
        target: b.target,
    }
}

// What an instruction at an index does to the state that waits there.
fn effect_of(m: &[u64], at: Index, rlen: u64, ins: Instruction) -> Effect
    requires { block_words * at.n ≤ length m.now }
    ensures { result ≡ defined.effect rlen at.i (facts_at m.now (layout.state_of at.i)) (shortened at.n ins) }
{
    match ins {
        Instruction::Jump {
            width,
            comparison,
            dst,
            operand,
            off,
        } => {
            let target = target(at.n as u64, at.i as u64, off);
            let branch = Branch {
                width,
                comparison,
                dst,
                operand,
                target,
            };
            fork_of(m, at, branch)
        }
        Instruction::Always { off } => Effect::Goto {
            target: target(at.n as u64, at.i as u64, off),
        },
        _ => effect_of_outcome(outcome_of(state_at(m, at.i), rlen, ins)),
    }
}

// Register r where a path comes to index i of n; None where none does.
pub fn register_at(scratch: &[u64], n: usize, i: usize, r: u64) -> Option<Value>
    ensures { words n ≤ length scratch.now → result ≡ known_of (waiting_in n scratch.now i) r }
{
    if scratch.len() / BLOCK_WORDS < n {
        return None;
    }
    if n <= i {
        return None;
    }
    if !waits_at(scratch, i) {
        return None;
    }
    Some(value_of(state_at(scratch, i).register(r)))
}

// What the instruction at index i does to what is known there; a jump out of the program leads to no further than its length. None where no
// path comes to it.
pub fn effect_at(program: &[u8], record_len: u64, scratch: &[u64], i: usize) -> Option<Effect>
    ensures { words (length program.now / 8) ≤ length scratch.now → length program.now / 8 ≤ 4096
        → result ≡ deed_of record_len i (waiting_in (length program.now / 8) scratch.now i)
        (shortened (length program.now / 8) (instruction program.now i)) }
{
    let n = program.len() / 8;
    if 4096 < n {
        return None;
    }
    if scratch.len() / BLOCK_WORDS < n {
        return None;
    }
    if n <= i {
        return None;
    }
    if !waits_at(scratch, i) {
        return None;
    }
    let ins = decode(program, i * 8);
    Some(effect_of(scratch, Index { i, n }, record_len, ins))
}
