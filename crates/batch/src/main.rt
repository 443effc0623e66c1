// The batch protocol: a request a line on standard input, an answer a line on standard output.
// Assumes that input ends within 2^64 reads; a read or a write that fails counts as the end of what it moves.
#![tactic(auto)]

ghost use Rattle.std.specs.Prelude.{◌≤◌, length, IfSome};

use console::answer::{LONGEST, respond};
use std::io::Read;
use waiting::MOST_WORDS;

// The memory that requests are answered in: for a program, a record, a stack and the verifier, and for answers, of which the first
// `waiting` bytes are not written yet.
#[derive(Drop)]
struct Memory<'a> {
    program: &'a mut [u8],
    rec: &'a mut [u8],
    stack: &'a mut [u8],
    scratch: &'a mut [u64],
    out: &'a mut [u8],
    waiting: usize,
    ghost inside: { waiting ≤ length out.now },
}

impl Memory<'_> {
    // Writes what waits.
    fn flush(&mut self, rt: &impl Print) {
        let _ = rt.write_all(&self.out[..self.waiting]);
        self.waiting = 0;
    }

    // Answers a line. What waits is written where less than an answer's room is left.
    fn answer(&mut self, rt: &impl Print, line: &[u8]) {
        self.waiting = respond(
            line,
            self.program,
            self.rec,
            self.stack,
            self.scratch,
            self.out,
            self.waiting,
        );
        if self.out.len() - self.waiting < 64 {
            self.flush(rt);
        }
    }

    // Answers the whole lines, and answers how many bytes stand behind them.
    fn answer_lines(&mut self, rt: &impl Print, lines: &[u8]) -> usize
        ensures { result ≤ length lines.now }
    {
        let mut rest = lines;
        while let Some(end) = rest.iter().position(|b| *b == b'\n') {
            self.answer(rt, &rest[..end]);
            rest = &rest[end + 1..];
        }
        self.flush(rt);
        rest.len()
    }
}

// What was read and is not answered: the first `held` bytes.
#[derive(Drop)]
struct Window<'a> {
    bytes: &'a mut [u8],
    held: usize,
    // They go on with a line that was too long, and has its answer already.
    long: bool,
    ghost inside: { held ≤ length bytes.now },
}

impl Window<'_> {
    // Reads once behind what is held, and answers whether anything came.
    fn read<I: Read>(&mut self, input: &mut I) -> bool {
        let n = input.read(&mut self.bytes[self.held..]).unwrap_or(0);
        self.held += n;
        n > 0
    }

    // Where the first line to be answered starts: what is left of a line that was too long is passed over.
    fn start(&self) -> Option<usize>
        ensures { IfSome result (λ start. start ≤ self.now.held) }
    {
        if !self.long {
            return Some(0);
        }
        let end = self.bytes[..self.held].iter().position(|b| *b == b'\n')?;
        Some(end + 1)
    }

    // Answers the whole lines, and moves what is left to the front. A line that is too long before its end is seen is answered here, and
    // nothing of it is kept.
    fn advance(&mut self, rt: &impl Print, memory: &mut Memory<'_>) {
        let Some(start) = self.start() else {
            self.held = 0;
            return;
        };
        let left = memory.answer_lines(rt, &self.bytes[start..self.held]);
        self.long = left > LONGEST;
        if self.long {
            let _ = rt.write_all(b"error\n");
            self.held = 0;
            return;
        }
        self.bytes.copy_within(self.held - left..self.held, 0);
        self.held = left;
    }
}

// Reads and answers until the input ends: at its end a line may have no line end.
fn serve(rt: &(impl Input + Print), window: &mut Window<'_>, memory: &mut Memory<'_>) {
    let mut input = rt.reader();
    for _ in 0..u64::MAX {
        if !window.read(&mut input) {
            if window.held > 0 {
                memory.answer(rt, &window.bytes[..window.held]);
                memory.flush(rt);
            }
            return;
        }
        window.advance(rt, memory);
    }
}

// The window takes in the longest line, and a good part of the next. A line's hex has half as many bytes as the line has characters.
// Scratch memory is enough for every program that passes the tests on form.
fn main(rt: HostRuntime) {
    let mut bytes = [0u8; 131072];
    let mut program = [0u8; 35000];
    let mut rec = [0u8; 35000];
    let mut stack = [0u8; 512];
    let mut scratch = [0u64; MOST_WORDS];
    let mut out = [0u8; 65536];
    let mut window = Window {
        bytes: &mut bytes,
        held: 0,
        long: false,
    };
    let mut memory = Memory {
        program: &mut program,
        rec: &mut rec,
        stack: &mut stack,
        scratch: &mut scratch,
        out: &mut out,
        waiting: 0,
    };
    serve(&rt, &mut window, &mut memory);
}
