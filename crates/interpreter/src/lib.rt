// The interpreter: what is refused, the cleared stack, and steps until the probe ends or its budget is spent. Outcome and
// stack are those of the machine's definition, on any program bytes and any record.
#![tactic(auto)]

ghost use Rattle.std.specs.Prelude.{◌≡◌, ℕ, ◌+◌, ◌≤◌, ◌<◌, ◌^◌, length, replicate};
ghost use Rattle.machine.specs.Ground.{world_of};
ghost use Rattle.machine.specs.Machine.{step as stepped, runs, start, bad_address, refused, interpreted};
ghost use Rattle.machine.specs.Machine.{overlap as overlapping};
ghost use Rattle.dispatch.specs.Represent.{LeadsOn};

use dispatch::answer::{Next, Point};
use dispatch::obey::obey;
use dispatch::why::why;
use machine::instruction::fields_at;
use machine::limits::bad_program;
use machine::memory::Ground;
use machine::outcome::Outcome;

// Kept: pc and live, and no Point: that pc lies in reach is a Point's invariant, and here it is any number.
// The instruction at pc, fetched and obeyed. No test asks whether dst and src are registers: sixteen numbers are kept, and one above 10 is never set.
pub fn step(
    program: &[u8],
    ground: Ground,
    pc: u64,
    live: u64,
    regs: &mut [u64; 16],
    stack: &mut [u8],
) -> Next
    requires { live < 2 ^ 11 }
    ensures { LeadsOn result regs.old regs.new stack.old stack.new live pc (λ t. stepped program.now (world_of ground.entry) t) }
{
    if ((program.len() / 8) as u64) <= pc {
        return Next::Stop;
    }
    let f = fields_at(program, (pc as usize) * 8);
    obey(ground, f, Point { pc, live }, regs, stack)
}

// Steps until the probe ends or faults, or the budget is spent. Why it faults is asked once, here, and not in a step.
fn run(program: &[u8], ground: Ground, stack: &mut [u8], budget: u64) -> Outcome
    requires low { ground.s ≤ 2 ^ 47 }
    requires cleared { stack.old ≡ replicate 512 0 }
    ensures { record { outcome = result; stack = stack.new } ≡ runs program.now (world_of ground.entry) budget 0 (start (world_of ground.entry)) }
{
    let mut regs = [0u64; 16];
    regs[1] = ground.p;
    regs[10] = ground.s + 512;
    let mut pc: u64 = 0;
    let mut live: u64 = 1026;
    for steps in 0..budget {
        match step(program, ground, pc, live, &mut regs, stack) {
            Next::Go {
                pc: onward,
                live: set,
            } => {
                pc = onward;
                live = set;
            }
            Next::Exit(value) => {
                return Outcome::Verdict {
                    value,
                    steps: steps + 1,
                };
            }
            Next::Stop => {
                return Outcome::Fault {
                    cause: why(program, pc, live),
                    at: pc,
                    steps,
                };
            }
        }
    }
    Outcome::Budget { steps: budget }
}

#[tactic(auto, unfolding(machine::specs::Machine::bad_address))]
fn bad_address(a: u64) -> bool
    ensures { result ≡ bad_address a }
{
    a < 65536 || a > 140737488355328
}

// The r bytes at p and the stack's 512 at s overlap.
#[tactic(auto, unfolding(machine::specs::Machine::overlap))]
fn overlap(p: u64, r: usize, s: u64) -> bool
    requires { (p ≤ 2 ^ 47) × (s ≤ 2 ^ 47) × (r ≤ 1024) }
    ensures { result ≡ overlapping p r s }
{
    0 < r && p < s + 512 && s < p + (r as u64)
}

// Whether a length or an address breaks the rule of docs/MACHINE.md, section 5.
#[tactic(auto, unfolding(machine::specs::Machine::refused, machine::specs::Machine::bad_record, machine::specs::Machine::bad_stack, machine::specs::Machine::bad_address))]
fn refuses(program: usize, rec: usize, stack: usize, p: u64, s: u64) -> bool
    ensures { result ≡ refused program rec stack p s }
{
    bad_program(program)
        || rec > 1024
        || stack != 512
        || bad_address(p)
        || bad_address(s)
        || overlap(p, rec, s)
}

// The interpreter. `p` and `s` are the addresses that the probe is told; nothing is read or written there.
pub fn interpret(
    program: &[u8],
    rec: &[u8],
    p: u64,
    s: u64,
    stack: &mut [u8],
    budget: u64,
) -> Outcome
    ensures { record { outcome = result; stack = stack.new } ≡ interpreted program.now rec.now p s stack.old budget }
{
    if refuses(program.len(), rec.len(), stack.len(), p, s) {
        return Outcome::Refused;
    }
    stack.fill(0);
    run(program, Ground { rec, p, s }, stack, budget)
}
