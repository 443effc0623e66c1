// The verbs verify and help by themselves. They need neither the interpreter nor what explains, so that the first answer of a new
// checkout has few crates to wait for; the script `probewarden` starts crate `command` for the other verbs.
#![tactic(auto)]

use orders::{Order, Request, Task, parse};
use reports::answer::conclude;
use terminal::arguments::{help_on, refuse_arguments, refuse_words, take_arguments};
use terminal::ending::stop;
use terminal::host::Terminal;
use terminal::program::{LONGEST_FILE, fetch_program};
use terminal::room::filled;
use verifier::verify::verify;
use waiting::MOST_WORDS;

// The memory of a start: for the program, for the verifier, and for what is said.
#[derive(Drop)]
struct Memory<'a> {
    program: &'a mut [u8],
    scratch: &'a mut [u64],
    out: &'a mut [u8],
}

impl Memory<'_> {
    fn judge(&mut self, rt: &impl Terminal, order: &Order<'_>, record_length: u64) {
        if let Some(program) = fetch_program(rt, order, self.program, self.out) {
            let answer = verify(program, record_length, self.scratch);
            conclude(rt, answer, program, self.out);
        }
    }

    // The other verbs are the business of crate `command`.
    fn obey(&mut self, rt: &impl Terminal, order: &Order<'_>) {
        match order.task {
            Task::Verify { record_length } => self.judge(rt, order, record_length),
            _ => stop(
                rt,
                b"probewarden: this program has the verbs verify and help\n",
            ),
        }
    }

    // Kept: as in the command, whose memory has more: a trait between two programs, for one match, is no plainer.
    fn serve(&mut self, rt: &impl Terminal, args: &[u8]) {
        match parse(args) {
            Ok(Request::Do(order)) => self.obey(rt, &order),
            Ok(Request::HelpOn(topic)) => help_on(rt, topic, self.out),
            Err(mistake) => refuse_words(rt, args, mistake, self.out),
        }
    }
}

// Memory for the longest program and the verifier's.
fn main(rt: HostRuntime) {
    let mut args = [0u8; 65536];
    let mut program = filled::<u8, LONGEST_FILE>(0);
    let mut scratch = filled::<u64, MOST_WORDS>(0);
    let mut out = [0u8; 4096];
    let Some(args) = take_arguments(&rt, &mut args) else {
        refuse_arguments(&rt);
        return;
    };
    let mut memory = Memory {
        program: &mut program,
        scratch: &mut scratch,
        out: &mut out,
    };
    memory.serve(&rt, args);
}
