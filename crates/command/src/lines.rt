// The listing of a program, alone or with what is known at each index.
use explain::joins::note_ways;
use explain::line::explain_line;
use explain::place::Annotated;
use listing::line::show_line;
use reports::answer::conclude;
use std::io;
use terminal::ending::{fail, say, status};
use terminal::host::Terminal;
use verifier::verify::annotate;

fn show_lines(rt: &impl Terminal, program: &[u8], out: &mut [u8]) -> io::Result<()> {
    for i in 0..program.len().div_ceil(8) {
        let n = show_line(program, i, out);
        say(rt, &out[..n])?;
    }
    Ok(())
}

// The listing alone.
pub fn show(rt: &impl Terminal, program: &[u8], out: &mut [u8]) {
    match show_lines(rt, program, out) {
        Ok(()) => status(rt, b'0'),
        Err(error) => fail(rt, error),
    }
}

// The listing with what is known at each index.
fn explain_lines(rt: &impl Terminal, annotated: Annotated<'_>, out: &mut [u8]) -> io::Result<()> {
    let mut ways = [0u8; 4096];
    note_ways(annotated, &mut ways);
    for i in 0..annotated.program.len().div_ceil(8) {
        let n = explain_line(annotated, &ways, i, out);
        say(rt, &out[..n])?;
    }
    Ok(())
}

// What could not be written of the listing is said when the answer is.
pub fn explain(
    rt: &impl Terminal,
    program: &[u8],
    record_len: u64,
    scratch: &mut [u64],
    out: &mut [u8],
) {
    let answer = annotate(program, record_len, scratch);
    if let Ok(judged) = answer {
        let annotated = Annotated {
            program,
            record_len,
            scratch,
            finding: judged.finding,
        };
        let _ = explain_lines(rt, annotated, out);
    }
    conclude(rt, answer, program, out);
}
