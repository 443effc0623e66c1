// A run in lines: what it comes to, and a step, with the instruction and what it changed. The step is the interpreter's own.
#![tactic(auto)]

ghost use Rattle.std.specs.Prelude.{◌<◌, ◌^◌, length};
ghost use Rattle.machine.specs.Ground.{world_of};
ghost use Rattle.tracing.specs.Traced.{Steps};
ghost use Rattle.text.specs.Page.{Longer};

use dispatch::answer::Next;
use dispatch::why::why;
use interpreter::step;
use listing::line::{end_line, write_line};
use machine::memory::Ground;
use machine::outcome::Cause;
use reasons::{fault_name, fault_number};
use text::page::{Page, fill};

mod numbers;
pub mod outcome;
mod registers;

use numbers::write_word;
use registers::{Registers, write_changes};

// How many bytes of text there are, where the run goes on, and why it does not, if it stops.
#[derive(Clone, Copy)]
pub struct Traced {
    pub bytes: usize,
    pub next: Next,
    // Kept: a cause for any step, since `Steps` speaks of none but a fault's.
    pub cause: Cause,
}

fn write_stop(page: &mut Page, cause: Cause)
    ensures { Longer page.old page.new }
{
    let fault = fault_number(cause);
    page.number(b"\t; fault ", fault, b": ");
    page.text(fault_name(fault));
}

fn write_next(page: &mut Page, before: &Registers, numbers: &[u64; 16], next: Next, cause: Cause)
    ensures { Longer page.old page.new }
{
    match next {
        Next::Go { pc: _, live } => {
            let numbers = *numbers;
            write_changes(page, before, &Registers { numbers, live });
        }
        Next::Exit(verdict) => write_word(page, b"\t; verdict ", verdict, b""),
        Next::Stop => write_stop(page, cause),
    }
}

// Kept: pc and live, and no Point, since pc is any number, as in `step`.
// The step at pc, and its line at the start of `out`.
pub fn trace_step(
    program: &[u8],
    ground: Ground,
    pc: u64,
    live: u64,
    regs: &mut [u64; 16],
    stack: &mut [u8],
    out: &mut [u8],
) -> Traced
    requires { live < 2 ^ 11 }
    ensures { Steps program.now (world_of ground.entry) pc live regs.old regs.new stack.old stack.new (length out.old) result }
{
    let before = Registers {
        numbers: *regs,
        live,
    };
    let next = step(program, ground, pc, live, regs, stack);
    let cause = why(program, pc, live);
    let after: &[u64; 16] = regs;
    let at = fill(out, |page| {
        write_line(page, program, pc as usize);
        write_next(page, &before, after, next, cause);
    });
    let bytes = end_line(out, at);
    Traced { bytes, next, cause }
}
