// What the verifier answers: in a line, as an exit status, and both said.
ghost use Rattle.std.specs.Prelude.{◌≡◌};
ghost use Rattle.text.specs.Buffer.{Put};
ghost use Rattle.text.specs.Page.{Wrote};
ghost use Rattle.reports.specs.Line.{refusal_text, finding_text, answer_text, finding_status, answer_status};

use analysis::{Answer, Finding, Reason};
use reasons::{reason_number, sentence_of};
use terminal::ending::finish;
use terminal::host::Terminal;
use text::page::Page;

fn write_refusal(page: &mut Page, reason: Reason, place: u64)
    ensures { Wrote page.old (refusal_text reason place) page.new }
{
    page.number(
        b"refused: reason ",
        reason_number(reason),
        b" at instruction ",
    );
    page.number(b"", place, b": ");
    page.text(sentence_of(reason));
    page.letter(b'\n');
}

fn write_finding(page: &mut Page, finding: Finding, n: u64)
    ensures { Wrote page.old (finding_text finding n) page.new }
{
    match finding {
        Finding::Accepted => page.number(b"accepted: at most ", n, b" steps\n"),
        Finding::Refused { reason, place } => write_refusal(page, reason, place),
    }
}

// The answer on a program of n instructions.
fn write_answer(page: &mut Page, answer: Answer, n: u64)
    ensures { Wrote page.old (answer_text answer n) page.new }
{
    match answer {
        Ok(judged) => write_finding(page, judged.finding, n),
        Err(small) => page.number(
            b"not verified: this takes ",
            small.words,
            b" words of scratch memory\n",
        ),
    }
}

#[tactic(auto, unfolding(text::specs::Page::written))]
pub fn put_answer(answer: Answer, n: u64, out: &mut [u8]) -> usize
    ensures { Put out.old 0 (answer_text answer n) out.new result }
{
    let mut page = Page::new(out);
    write_answer(&mut page, answer, n);
    page.end()
}

fn finding_status(finding: Finding) -> u8
    ensures { result ≡ finding_status finding }
{
    match finding {
        Finding::Accepted => b'0',
        Finding::Refused { .. } => b'1',
    }
}

// The digit of the exit status that goes with the answer.
pub fn status_of(answer: Answer) -> u8
    ensures { result ≡ answer_status answer }
{
    match answer {
        Ok(judged) => finding_status(judged.finding),
        Err(_) => b'2',
    }
}

pub fn conclude(rt: &impl Terminal, answer: Answer, program: &[u8], out: &mut [u8]) {
    let n = put_answer(answer, (program.len() / 8) as u64, out);
    finish(rt, &out[..n], status_of(answer));
}
