// The command with all its verbs: arguments, files and descriptors, and nothing else; what is said stands in the libraries.
#![tactic(auto)]

use lines::{explain, show};
use orders::{Order, Request, Task, parse};
use reports::answer::conclude;
use run::run;
use terminal::arguments::{help_on, refuse_arguments, refuse_words, take_arguments};
use terminal::host::Terminal;
use terminal::program::{LONGEST_FILE, fetch_program};
use terminal::room::filled;
use verifier::verify::verify;
use waiting::MOST_WORDS;

mod lines;
mod run;

// The memory of a start: for the program, for the verifier, for a run's record and stack, and for what is said.
#[derive(Drop)]
struct Memory<'a> {
    program: &'a mut [u8],
    scratch: &'a mut [u64],
    rec: &'a mut [u8],
    stack: &'a mut [u8],
    out: &'a mut [u8],
}

impl Memory<'_> {
    fn obey(&mut self, rt: &impl Terminal, order: &Order<'_>) {
        let Some(program) = fetch_program(rt, order, self.program, self.out) else {
            return;
        };
        match order.task {
            Task::Show => show(rt, program, self.out),
            Task::Verify { record_length } => {
                let answer = verify(program, record_length, self.scratch);
                conclude(rt, answer, program, self.out);
            }
            Task::Explain { record_length } => {
                explain(rt, program, record_length, self.scratch, self.out);
            }
            Task::Run(start) => run(rt, program, &start, self.rec, self.stack, self.out),
        }
    }

    fn serve(&mut self, rt: &impl Terminal, args: &[u8]) {
        match parse(args) {
            Ok(Request::Do(order)) => self.obey(rt, &order),
            Ok(Request::HelpOn(topic)) => help_on(rt, topic, self.out),
            Err(mistake) => refuse_words(rt, args, mistake, self.out),
        }
    }
}

// Memory for the longest program and the verifier's; of a record one byte more is read than it may have.
fn main(rt: HostRuntime) {
    let mut args = [0u8; 65536];
    let mut program = filled::<u8, LONGEST_FILE>(0);
    let mut scratch = filled::<u64, MOST_WORDS>(0);
    let mut rec = [0u8; 1026];
    let mut stack = [0u8; 512];
    let mut out = [0u8; 4096];
    let Some(args) = take_arguments(&rt, &mut args) else {
        refuse_arguments(&rt);
        return;
    };
    let mut memory = Memory {
        program: &mut program,
        scratch: &mut scratch,
        rec: &mut rec,
        stack: &mut stack,
        out: &mut out,
    };
    memory.serve(&rt, args);
}
