// States are sent: the state of an index comes to a later index, where it is copied or joined to what waits there. To send it with a
// register changed, the register is changed in place, and its words are put back afterwards.
ghost use Rattle.std.specs.Prelude.{◌≡◌, cond, Some, ◌+◌, ◌*◌, ◌≤◌, ◌<◌, length};
ghost use Rattle.analysis.specs.Values.{value_of, operand_of};
ghost use Rattle.analysis.specs.Effects as effects;
ghost use Rattle.analysis.specs.Judged as defined;
ghost use Rattle.waiting.specs.State.{held_in, facts_at};
ghost use Rattle.waiting.specs.Store.{waiting_in};
ghost use Rattle.verifier.specs.Sending.{Sent};
ghost use Rattle.verifier.specs.Outcome.{effect_in};
ghost use Rattle.waiting.specs.Layout as layout;
ghost use Rattle.waiting.specs.Layout.{block_words};

use crate::effect::{Outcome, operand_held, singles, unusable};
use crate::index::Index;
use crate::ways::{is_taken, told};
use crate::{Halt, Step};
use analysis::{Reason, Value};
use machine::instruction::{Operand, Width};
use number::{Number, Refined};
use waiting::state::{put_register, put_words_back};
use waiting::store::{arrive, arrive_with, state_at, state_of, waits_at};
use waiting::value::{Held, Kind};
use word::Comparison;

// A jump on a comparison, and the index it leads to where it is taken.
#[derive(Clone, Copy)]
pub struct Branch {
    pub width: Width,
    pub comparison: Comparison,
    pub dst: u64,
    pub operand: Operand,
    pub target: u64,
}

// Kept: the words, the place, the target and the work apart, as in `waiting::store`: a value with the lent words in it would have to say at each
// return that they are the same still.
// And i and n apart, since any i below j will do, of any n.
pub fn send(m: &mut [u64], n: usize, i: usize, j: u64, work: u64) -> Step
    requires { (i < j) × (block_words * n ≤ length m.old) × (work < 1048576) }
    ensures { Sent (defined.send n j (Some (facts_at m.old (layout.state_of i))) (waiting_in n m.old) work) n i result m.old m.new }
{
    if n as u64 <= j {
        return Err(Halt {
            reason: Reason::JumpsOut,
            work,
        });
    }
    arrive(m, n, i, j as usize);
    Ok(work + 11)
}

// With h in register d.
fn send_with(m: &mut [u64], at: Index, j: u64, d: u64, h: Held, work: u64) -> Step
    requires { (at.i < j) × (block_words * at.n ≤ length m.old) × (work < 1048576) }
    ensures { Sent (defined.send at.n j (Some (defined.having (facts_at m.old (layout.state_of at.i)) d (held_in h))) (waiting_in at.n m.old) work) at.n at.i result m.old m.new }
{
    let state = state_of(at.i);
    let words = state_at(m, at.i).words_of_register(d);
    put_register(m, state, d, h);
    let step = send(m, at.n, at.i, j, work);
    put_words_back(m, state, d, words);
    step
}

// With what a way out of a jump tells of both operands.
fn send_with_both(
    m: &mut [u64],
    at: Index,
    j: u64,
    d: u64,
    s: Operand,
    x: Number,
    y: Number,
    work: u64,
) -> Step
    requires { (at.i < j) × (block_words * at.n ≤ length m.old) × (work < 1048576) }
    ensures { Sent (defined.send at.n j (Some (defined.with_operand (defined.having (facts_at m.old (layout.state_of at.i)) d (Value.Plain x)) s (Value.Plain y))) (waiting_in at.n m.old) work) at.n at.i result m.old m.new }
{
    match s {
        Operand::Immediate(_) => send_with(m, at, j, d, Held::plain(x), work),
        Operand::Register(r) => {
            let state = state_of(at.i);
            let words = state_at(m, at.i).words_of_register(d);
            put_register(m, state, d, Held::plain(x));
            let step = send_with(m, at, j, r, Held::plain(y), work);
            put_words_back(m, state, d, words);
            step
        }
    }
}

// A way out of a jump.
fn send_along(m: &mut [u64], at: Index, j: u64, d: u64, s: Operand, way: Refined, work: u64) -> Step
    requires { (at.i < j) × (block_words * at.n ≤ length m.old) × (work < 1048576) }
    ensures { Sent (defined.send at.n j (defined.along (facts_at m.old (layout.state_of at.i)) d s way) (waiting_in at.n m.old) work) at.n at.i result m.old m.new }
{
    match way {
        None => Ok(work),
        Some((x, y)) => send_with_both(m, at, j, d, s, x, y, work),
    }
}

// Both ways out of a jump, the way on first.
fn fork(m: &mut [u64], at: Index, b: Branch, work: u64) -> Step
    requires { (at.i < b.target) × (block_words * at.n ≤ length m.old) × (work < 1048000) }
    ensures { Sent (defined.distribute at.n at.i (waiting_in at.n m.old) work (defined.apply (facts_at m.old (layout.state_of at.i))
        (effects.reading_both (value_of (facts_at m.old (layout.state_of at.i)) b.dst) (operand_of (facts_at m.old (layout.state_of at.i)) b.operand)
        (effects.fork b.width b.comparison b.dst b.operand b.target (value_of (facts_at m.old (layout.state_of at.i)) b.dst) (operand_of (facts_at m.old (layout.state_of at.i)) b.operand)))))
        at.n at.i result m.old m.new }
{
    let state = state_at(m, at.i);
    let x = state.register(b.dst);
    let y = operand_held(state, b.operand);
    let (Kind::Plain, Kind::Plain) = (x.kind, y.kind) else {
        return Err(Halt {
            reason: unusable(x.kind, y.kind),
            work,
        });
    };
    let onward = told(b.width, b.comparison, false, x.number, y.number);
    let done = send_along(m, at, at.i as u64 + 1, b.dst, b.operand, onward, work)?;
    let taken = told(b.width, b.comparison, true, x.number, y.number);
    send_along(m, at, b.target, b.dst, b.operand, taken, done)
}

// The state goes on unchanged: to the target, or to the next index.
fn turn(m: &mut [u64], at: Index, taken: bool, target: u64, work: u64) -> Step
    requires { (at.i < target) × (block_words * at.n ≤ length m.old) × (work < 1048576) }
    ensures { Sent (defined.send at.n (cond taken target (at.i + 1)) (Some (facts_at m.old (layout.state_of at.i))) (waiting_in at.n m.old) work) at.n at.i result m.old m.new }
{
    let next = if taken { target } else { at.i as u64 + 1 };
    send(m, at.n, at.i, next, work)
}

// A jump. Two known numbers go one way, and nothing is learnt of them.
pub fn jump(m: &mut [u64], at: Index, b: Branch, work: u64) -> Step
    requires { (at.i < b.target) × (block_words * at.n ≤ length m.old) × (work < 1048000) }
    ensures { Sent (defined.distribute at.n at.i (waiting_in at.n m.old) work (defined.apply (facts_at m.old (layout.state_of at.i))
        (effects.reading_both (value_of (facts_at m.old (layout.state_of at.i)) b.dst) (operand_of (facts_at m.old (layout.state_of at.i)) b.operand)
        (effects.fork b.width b.comparison b.dst b.operand b.target (value_of (facts_at m.old (layout.state_of at.i)) b.dst) (operand_of (facts_at m.old (layout.state_of at.i)) b.operand)))))
        at.n at.i result m.old m.new }
{
    match singles(state_at(m, at.i), b.dst, b.operand) {
        Some((x, y)) => {
            let taken = is_taken(b.width, b.comparison, x, y);
            turn(m, at, taken, b.target, work)
        }
        None => fork(m, at, b, work),
    }
}

// The state goes on to the next index, with h in register d: where nothing waits there, it is changed at its new place.
fn put_next(m: &mut [u64], at: Index, d: u64, h: Held, work: u64) -> Step
    requires { (block_words * at.n ≤ length m.old) × (work < 1048000) }
    ensures { Sent (defined.send at.n (at.i + 1) (Some (defined.having (facts_at m.old (layout.state_of at.i)) d (held_in h))) (waiting_in at.n m.old) work) at.n at.i result m.old m.new }
{
    if at.i + 1 < at.n && !waits_at(m, at.i + 1) {
        arrive_with(m, at.n, at.i, d, h);
        return Ok(work + 11);
    }
    send_with(m, at, at.i as u64 + 1, d, h, work)
}

// What an instruction that is no jump does at an index.
pub fn proceed(m: &mut [u64], at: Index, outcome: Result<Outcome, Reason>, work: u64) -> Step
    requires { (block_words * at.n ≤ length m.old) × (work < 1048000) }
    ensures { Sent (defined.distribute at.n at.i (waiting_in at.n m.old) work
        (defined.apply (facts_at m.old (layout.state_of at.i)) (effect_in outcome))) at.n at.i result m.old m.new }
{
    match outcome {
        Ok(does) => match does {
            Outcome::Put { dst, held } => put_next(m, at, dst, held, work),
            Outcome::Keep => send(m, at.n, at.i, at.i as u64 + 1, work),
            Outcome::Stop => Ok(work),
        },
        Err(reason) => Err(Halt { reason, work }),
    }
}
