// The verifier's answer on any program, any record length and any scratch memory.
ghost use Rattle.std.specs.Prelude.{◌≡◌, false, Ok, ◌/◌, ◌≤◌, length};
ghost use Rattle.machine.specs.Machine as machine;
ghost use Rattle.analysis.specs.declared.Finding.TheVariants as finding;
ghost use Rattle.analysis.specs.Judged.{formed};
ghost use Rattle.verifier.specs.Answered.{answered, Annotates, Untouched, Answers, Promises};

use crate::form::check;
use crate::pass::follow;
use crate::paths::connected;
use analysis::{Answer, Finding, Judged, Reason, ScratchTooSmall};
use machine::limits::bad_program;
use waiting::BLOCK_WORDS;

// Refused before the first instruction is looked at.
fn refusal(reason: Reason) -> Answer
    ensures { result ≡ Ok (record { finding = Finding.Refused reason 0; work = 0 }) }
{
    Ok(Judged {
        finding: Finding::Refused { reason, place: 0 },
        work: 0,
    })
}

// The tests at each index have been passed: scratch memory comes next, then dead code, then the values.
fn annotate_orderly(program: &[u8], n: usize, record_len: u64, scratch: &mut [u64]) -> Answer
    requires { (machine.bad_program (length program.now) ≡ false) × (record_len ≤ 1024) × (n ≡ length program.now / 8) × (formed program.now (length program.now / 8) 0 ≡ finding.Accepted) }
    ensures { Answers program.now record_len scratch.old scratch.new result }
{
    if scratch.len() < BLOCK_WORDS * n {
        return Err(ScratchTooSmall {
            words: (BLOCK_WORDS as u64) * n as u64,
        });
    }
    if let Finding::Refused { reason, place } = connected(program, n) {
        return Ok(Judged {
            finding: Finding::Refused { reason, place },
            work: n as u64 + (place + 1),
        });
    }
    Ok(follow(program, n, record_len, scratch))
}

// Scratch memory holds what waits for each index afterwards, where the values were followed; otherwise it is as it was.
pub fn annotate(program: &[u8], record_len: u64, scratch: &mut [u64]) -> Answer
    ensures answer { result ≡ answered program.now record_len (length scratch.old) }
    ensures values { Annotates program.now record_len (length scratch.old) scratch.new }
    ensures untouched { Untouched program.now record_len scratch.old scratch.new }
{
    if bad_program(program.len()) {
        return refusal(Reason::BadLength);
    }
    if 1024 < record_len {
        return refusal(Reason::LongRecord);
    }
    let n = program.len() / 8;
    if let Finding::Refused { reason, place } = check(program, n) {
        return Ok(Judged {
            finding: Finding::Refused { reason, place },
            work: place + 1,
        });
    }
    annotate_orderly(program, n, record_len, scratch)
}

// A yes is a theorem about the interpreter's definition; a refusal for the form changes nothing.
pub fn verify(program: &[u8], record_len: u64, scratch: &mut [u64]) -> Answer
    ensures answer { result ≡ answered program.now record_len (length scratch.old) }
    ensures promise { Promises program.now record_len result }
    ensures untouched { Untouched program.now record_len scratch.old scratch.new }
{
    annotate(program, record_len, scratch)
}
