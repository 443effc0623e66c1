// The answer to a request line.
ghost use Rattle.std.specs.Prelude.{◌++◌, ◌≡◌, length, false, true};
ghost use Rattle.text.specs.Buffer.{Put, chars, decimal};
ghost use Rattle.text.specs.Page.{Wrote};
ghost use Rattle.console.specs.Answer.{Told, Replied, Responded, answer_text, finding_text, outcome_of, outcome_text, reply_text, run_reply};
ghost use Rattle.console.specs.Bits.{asked_of};

use crate::bits::{named, read_asked, work};
use crate::request::{Numbers, Words, read_bytes, read_numbers};
use crate::verify::verify;
use analysis::Finding;
use interpreter::interpret;
use known_bits::Bits;
use machine::outcome::Outcome;
use reasons::{fault_number, reason_number};
use text::page::Page;

// A line with more characters is no request, whatever it says.
pub const LONGEST: usize = 70000;

// What a request comes to.
#[derive(Clone, Copy)]
pub enum Reply {
    Ran(Outcome),
    Pair(Bits),
    Found(Finding),
}

// What a line asks for.
#[derive(Clone, Copy)]
enum Verb {
    Bits,
    Run,
    Verify,
}

const VERBS: [(&[u8], Verb); 3] = [
    (b"kb", Verb::Bits),
    (b"run", Verb::Run),
    (b"verify", Verb::Verify),
];

// A record of another length than R is refused before the machine sees it.
#[tactic(auto, unfolding(crate::specs::Answer::outcome_of))]
fn execute(numbers: Numbers, program: &[u8], rec: &[u8], stack: &mut [u8]) -> Outcome
    ensures { result ≡ outcome_of numbers program.now rec.now stack.old }
{
    if numbers.size != rec.len() as u64 {
        return Outcome::Refused;
    }
    interpret(program, rec, numbers.p, numbers.s, stack, numbers.budget)
}

// R P S BUDGET PROGRAM RECORD.
#[tactic(auto, unfolding(crate::specs::Answer::run_reply, crate::specs::Answer::due))]
fn run(words: &mut Words<'_>, program: &mut [u8], rec: &mut [u8], stack: &mut [u8]) -> Option<Reply>
    ensures { result ≡ run_reply words.old.rest.now (length program.old) (length rec.old) stack.old }
{
    let numbers = read_numbers(words)?;
    let (n, k) = read_bytes(words, program, rec)?;
    Some(Reply::Ran(execute(numbers, &program[..n], &rec[..k], stack)))
}

// OP WIDTH v/m v/m.
#[tactic(auto, using(crate::proofs::Serving::told_bad, crate::proofs::Serving::told_pair))]
fn bits(words: &mut Words<'_>) -> Option<Reply>
    ensures { Told (asked_of words.old.rest.now) result }
{
    let asked = read_asked(words)?;
    Some(Reply::Pair(work(asked)))
}

// The first word is the verb, and each verb has its function.
fn reply_to(
    line: &[u8],
    program: &mut [u8],
    rec: &mut [u8],
    stack: &mut [u8],
    scratch: &mut [u64],
) -> Option<Reply>
    ensures { Replied line.now (length program.old) (length rec.old) stack.old (length scratch.old) result }
{
    if line.len() > LONGEST {
        return None;
    }
    let mut words = Words { rest: line };
    match named(&VERBS, words.take())? {
        Verb::Bits => bits(&mut words),
        Verb::Run => run(&mut words, program, rec, stack),
        Verb::Verify => verify(&mut words, program, scratch),
    }
}

// A word and two numbers.
#[tactic(auto, using(text::proofs::Pages::pages))]
fn write_pair(page: &mut Page, word: &[u8], a: u64, b: u64)
    ensures { Wrote page.old (word.now ++ decimal a ++ chars " " ++ decimal b) page.new }
{
    page.number(word, a, b" ");
    page.decimal(b);
}

#[tactic(auto, using(text::proofs::Pages::pages), unfolding(crate::specs::Answer::outcome_text))]
fn write_outcome(page: &mut Page, outcome: Outcome)
    ensures { Wrote page.old (outcome_text outcome) page.new }
{
    match outcome {
        Outcome::Verdict { value, steps } => write_pair(page, b"verdict ", value, steps),
        Outcome::Fault { cause, steps, .. } => write_pair(
            page,
            b"fault ",
            fault_number(cause),
            steps,
        ),
        Outcome::Budget { steps } => page.number(b"budget ", steps, b""),
        Outcome::Refused => page.text(b"refused"),
    }
}

#[tactic(auto, using(text::proofs::Pages::pages), unfolding(crate::specs::Answer::finding_text, analysis::specs::Judged::pair))]
fn write_finding(page: &mut Page, finding: Finding)
    ensures { Wrote page.old (finding_text finding) page.new }
{
    match finding {
        Finding::Accepted => write_pair(page, b"", 0, 0),
        Finding::Refused { reason, place } => write_pair(page, b"", reason_number(reason), place),
    }
}

#[tactic(auto, using(text::proofs::Pages::pages), unfolding(crate::specs::Answer::answer_text, crate::specs::Answer::reply_text))]
fn write_answer(page: &mut Page, reply: Option<Reply>)
    ensures { Wrote page.old (answer_text reply) page.new }
{
    match reply {
        Some(Reply::Ran(outcome)) => write_outcome(page, outcome),
        Some(Reply::Pair(bits)) => {
            page.hexadecimal(bits.value);
            page.letter(b'/');
            page.hexadecimal(bits.mask);
        }
        Some(Reply::Found(finding)) => write_finding(page, finding),
        None => page.text(b"error"),
    }
    page.letter(b'\n');
}

// Puts the answer from `at` on: nothing where `at` is beyond `out`.
#[tactic(auto, using(text::proofs::Puts::put_outside), unfolding(text::specs::Page::written))]
fn put_answer(out: &mut [u8], at: usize, reply: Option<Reply>) -> usize
    ensures { Put out.old at (answer_text reply) out.new result }
{
    if at > out.len() {
        return at;
    }
    let mut page = Page::behind(out, at);
    write_answer(&mut page, reply);
    page.end()
}

// Puts the answer to a line from `at` on, with its line end: at most 50 characters, cut where `out` ends. The answer is the
// index after it; where `at` is beyond `out`, nothing is put, and it is `at`.
pub fn respond(
    line: &[u8],
    program: &mut [u8],
    rec: &mut [u8],
    stack: &mut [u8],
    scratch: &mut [u64],
    out: &mut [u8],
    at: usize,
) -> usize
    ensures { Responded line.now (length program.old) (length rec.old) stack.old (length scratch.old) out.old at out.new result }
{
    let reply = reply_to(line, program, rec, stack, scratch);
    put_answer(out, at, reply)
}
