// The pass that follows the values: each index once, after all that comes there.
ghost use Rattle.std.specs.Prelude.{◌≡◌, ◌+◌, ◌*◌, ◌/◌, ◌≤◌, ◌<◌, min, length};
ghost use Rattle.analysis.specs.Judged as defined;
ghost use Rattle.waiting.specs.Store.{waiting_in, Begun};
ghost use Rattle.verifier.specs.Sending.{Sent, Followed};
ghost use Rattle.waiting.specs.Layout.{block_words};

use crate::effect::outcome_of;
use crate::index::Index;
use crate::send::{Branch, jump, proceed, send};
use crate::{Halt, Step};
use analysis::{Finding, Judged};
use machine::instruction::{Instruction, decode};
use waiting::store::{begin, state_at, waits_at};

// A jump by more than the program's length leads out of it, as one by its length does.
pub fn target(n: u64, i: u64, off: u64) -> u64
    requires { (i < 4096) × (n ≤ 4096) }
    ensures { result ≡ i + 1 + min off n }
{
    if n <= off {
        return i + 1 + n;
    }
    i + 1 + off
}

// What waits at an index goes on from there as its instruction says.
fn visit(program: &[u8], at: Index, rlen: u64, m: &mut [u64], work: u64) -> Step
    requires { (at.n ≡ length program.now / 8) × (block_words * at.n ≤ length m.old) × (work < 1000000) }
    ensures { Sent (defined.visit program.now rlen at.i (waiting_in at.n m.old) work (waiting_in at.n m.old at.i))
        at.n at.i result m.old m.new }
{
    if !waits_at(m, at.i) {
        return Ok(work);
    }
    match decode(program, at.i * 8) {
        Instruction::Jump {
            width,
            comparison,
            dst,
            operand,
            off,
        } => {
            let target = target(at.n as u64, at.i as u64, off);
            let branch = Branch {
                width,
                comparison,
                dst,
                operand,
                target,
            };
            jump(m, at, branch, work + 1)
        }
        Instruction::Always { off } => {
            let target = target(at.n as u64, at.i as u64, off);
            send(m, at.n, at.i, target, work + 1)
        }
        ins => {
            let outcome = outcome_of(state_at(m, at.i), rlen, ins);
            proceed(m, at, outcome, work + 1)
        }
    }
}

pub fn follow(program: &[u8], n: usize, rlen: u64, m: &mut [u64]) -> Judged
    requires { (0 < n) × (n ≤ 4096) × (n ≡ length program.now / 8) × (block_words * n ≤ length m.old) }
    ensures { Followed program.now rlen n result m.old m.new }
{
    begin(m, n);
    let mut work = 2 * n as u64 + 11;
    for i in 0..n {
        match visit(program, Index { i, n }, rlen, m, work) {
            Ok(done) => work = done,
            Err(Halt { reason, work }) => {
                return Judged {
                    finding: Finding::Refused {
                        reason,
                        place: i as u64,
                    },
                    work,
                };
            }
        }
    }
    Judged {
        finding: Finding::Accepted,
        work,
    }
}
