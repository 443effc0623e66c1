// The functions of the C library, as include/probewarden.h declares them: crate `probewarden_c` gives them to C.
ghost use Rattle.std.specs.Prelude.{◌≡◌, [], ◌∷◌, ◌≤◌, length};
ghost use Rattle.text.specs.Buffer.{Put};
ghost use Rattle.text.specs.Page.{Wrote};
ghost use Rattle.probewarden.specs.Encoding.{answer_said, ended, headed};
ghost use Rattle.probewarden.specs.Exported.{enough, Says, Verified, Interpreted};
ghost use Rattle.reasons.specs.Names.{reason_name, fault_name};

use analysis::{Answer, Finding, Judged, ScratchTooSmall};
use interpreter::interpret;
use machine::outcome::Outcome;
use reasons::{fault_name, fault_number, reason_name, reason_number};
use text::page::Page;
use verifier::verify::verify;
use waiting::BLOCK_WORDS;

// Kept: C reads these codes, and those that `tell` and `pw_run` answer, as include/probewarden.h has them.
// Why nothing was done: there is no room for the answer.
const NO_ROOM: u64 = 9;

// Or there are no such rules.
const BAD_RULES: u64 = 11;

// The words go to the start of the answer.
#[tactic(auto, unfolding(crate::specs::Encoding::headed))]
fn store<const N: usize>(answer: &mut [u64], words: [u64; N])
    requires { N ≤ length answer.old }
    ensures { answer.new ≡ headed words.entry answer.old }
{
    answer[..N].copy_from_slice(&words);
}

// The words of scratch memory that are enough for a program of so many instructions.
#[tactic(auto, unfolding(crate::specs::Exported::enough, waiting::specs::Layout::words))]
pub fn pw_scratch_words(instructions: u64) -> u64
    ensures { result ≡ enough instructions }
{
    if instructions <= 4096 {
        return (BLOCK_WORDS as u64) * instructions;
    }
    0
}

// What the verifier found of a program of n instructions is said.
fn tell(answer: &mut [u64], n: u64, found: Answer) -> u64
    requires { 4 ≤ length answer.old }
    ensures { Says (answer_said n found) answer.old answer.new result }
{
    match found {
        Err(ScratchTooSmall { words }) => {
            store(answer, [words, 0, 0, 0]);
            2
        }
        Ok(Judged { finding, work }) => match finding {
            Finding::Accepted => {
                store(answer, [0, 0, work, n]);
                0
            }
            Finding::Refused { reason, place } => {
                store(answer, [reason_number(reason), place, work, 0]);
                1
            }
        },
    }
}

// Rules other than 0, and with them a limit of visits, are for loops, which are not taken yet.
pub fn pw_verify(
    program: &[u8],
    record_len: u64,
    rules: u64,
    limit: u64,
    scratch: &mut [u64],
    answer: &mut [u64],
) -> u64
    ensures { Verified program.now record_len rules scratch.old scratch.new
        answer.old answer.new result }
{
    if answer.len() < 4 {
        return NO_ROOM;
    }
    if rules != 0 {
        return BAD_RULES;
    }
    let found = verify(program, record_len, scratch);
    tell(answer, (program.len() / 8) as u64, found)
}

pub fn pw_run(
    program: &[u8],
    rec: &[u8],
    p: u64,
    s: u64,
    stack: &mut [u8],
    budget: u64,
    answer: &mut [u64],
) -> u64
    ensures { Interpreted program.now rec.now p s stack.old stack.new budget answer.old answer.new result }
{
    if answer.len() < 3 {
        return NO_ROOM;
    }
    match interpret(program, rec, p, s, stack, budget) {
        Outcome::Verdict { value, steps } => {
            store(answer, [value, steps, 0]);
            0
        }
        Outcome::Fault { cause, at, steps } => {
            store(answer, [fault_number(cause), steps, at]);
            1
        }
        Outcome::Budget { steps } => {
            store(answer, [0, steps, 0]);
            2
        }
        Outcome::Refused => 3,
    }
}

// A text as C has it, with a 0 behind it.
#[tactic(auto, using(text::proofs::Pages::pages), unfolding(crate::specs::Encoding::ended))]
fn write_ended(page: &mut Page, name: &[u8])
    ensures { Wrote page.old (ended name.now) page.new }
{
    page.text(name);
    page.letter(0);
}

// Puts a reason's name and a 0, as far as there is room, and answers how many bytes were put.
#[tactic(auto, unfolding(text::specs::Page::written))]
pub fn pw_reason_name(reason: u64, out: &mut [u8]) -> usize
    ensures { Put out.old 0 (ended (reason_name reason)) out.new result }
{
    let mut page = Page::new(out);
    write_ended(&mut page, reason_name(reason));
    page.end()
}

// Puts a fault's name and a 0, as far as there is room, and answers how many bytes were put.
#[tactic(auto, unfolding(text::specs::Page::written))]
pub fn pw_fault_name(fault: u64, out: &mut [u8]) -> usize
    ensures { Put out.old 0 (ended (fault_name fault)) out.new result }
{
    let mut page = Page::new(out);
    write_ended(&mut page, fault_name(fault));
    page.end()
}
