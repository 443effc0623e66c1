// A run of a program on a record, with its steps where they are wanted.
ghost use Rattle.std.specs.Prelude.{◌≤◌, ◌^◌};

use dispatch::answer::Next;
use interpreter::interpret;
use machine::memory::Ground;
use machine::outcome::Outcome;
use orders::Start;
use std::io;
use terminal::ending::{finish, say, status, stop};
use terminal::file::read_file;
use terminal::host::Terminal;
use tracing::outcome::{outcome_line, refusal_line, status_of_run};
use tracing::trace_step;

// An address of a stack is not above it.
const HIGHEST: u64 = 0x8000_0000_0000;

// The steps of a run that is not refused, a line each.
fn trace(
    rt: &impl Terminal,
    program: &[u8],
    ground: Ground<'_>,
    budget: u64,
    stack: &mut [u8],
    out: &mut [u8],
) -> io::Result<()>
    requires { ground.s ≤ 2 ^ 47 }
{
    let mut regs = [0u64; 16];
    regs[1] = ground.p;
    regs[10] = ground.s + 512;
    let mut pc: u64 = 0;
    let mut live: u64 = 1026;
    'steps: for _ in 0..budget {
        let traced = trace_step(program, ground, pc, live, &mut regs, stack, out);
        say(rt, &out[..traced.bytes])?;
        match traced.next {
            Next::Go {
                pc: onward,
                live: set,
            } => {
                pc = onward;
                live = set;
            }
            Next::Exit(_) | Next::Stop => break,
        }
    }
    Ok(())
}

fn run_on(
    rt: &impl Terminal,
    program: &[u8],
    rec: &[u8],
    start: &Start<'_>,
    stack: &mut [u8],
    out: &mut [u8],
) {
    let p = start.record_at;
    let s = start.stack_at;
    let outcome = interpret(program, rec, p, s, stack, start.budget);
    if let Outcome::Refused = outcome {
        let n = refusal_line(program.len(), rec.len(), p, s, out);
        stop(rt, &out[..n]);
        return;
    }
    // The run once more, from a cleared stack. What could not be written of it is said when the outcome is.
    if start.trace && s <= HIGHEST {
        stack.fill(0);
        let _ = trace(rt, program, Ground { rec, p, s }, start.budget, stack, out);
    }
    let n = outcome_line(outcome, out);
    finish(rt, &out[..n], status_of_run(outcome));
}

// The record's bytes are read into `rec`, which has room for one more than a record may have.
pub fn run(
    rt: &impl Terminal,
    program: &[u8],
    start: &Start<'_>,
    rec: &mut [u8],
    stack: &mut [u8],
    out: &mut [u8],
) {
    match read_file(rt, start.record_file, rec, out) {
        Some(rec) => run_on(rt, program, rec, start, stack, out),
        None => status(rt, b'2'),
    }
}
