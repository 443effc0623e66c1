// What a run comes to: in a line, and as an exit status.
ghost use Rattle.std.specs.Prelude.{◌≤◌, length};
ghost use Rattle.text.specs.Page.{Longer};

use crate::numbers::write_word;
use machine::outcome::{Cause, Outcome};
use reasons::{fault_name, fault_number};
use text::page::{Page, fill};

fn write_verdict(page: &mut Page, value: u64, steps: u64)
    ensures { Longer page.old page.new }
{
    page.number(b"verdict ", value, b"");
    write_word(page, b" (", value, b")");
    page.number(b" after ", steps, b" steps\n");
}

fn write_fault(page: &mut Page, cause: Cause, at: u64, steps: u64)
    ensures { Longer page.old page.new }
{
    let fault = fault_number(cause);
    page.number(b"fault ", fault, b" (");
    page.text(fault_name(fault));
    page.number(b") at instruction ", at, b"");
    page.number(b" after ", steps, b" steps\n");
}

fn write_outcome(page: &mut Page, outcome: Outcome)
    ensures { Longer page.old page.new }
{
    match outcome {
        Outcome::Verdict { value, steps } => write_verdict(page, value, steps),
        Outcome::Fault { cause, at, steps } => write_fault(page, cause, at, steps),
        Outcome::Budget { steps } => page.number(
            b"budget spent: ",
            steps,
            b" steps were made, and the probe has not ended; --budget N allows more\n",
        ),
        Outcome::Refused => {}
    }
}

// A run that was not refused.
pub fn outcome_line(outcome: Outcome, out: &mut [u8]) -> usize
    ensures { result ≤ length out.old }
{
    fill(out, |page| write_outcome(page, outcome))
}

fn is_address(a: u64) -> bool {
    0x10000 <= a && a <= 0x8000_0000_0000
}

fn write_refusal(page: &mut Page, program: usize, rec: usize, p: u64, s: u64)
    ensures { Longer page.old page.new }
{
    page.text(b"probewarden: not run: ");
    if program == 0 || program % 8 != 0 || 32768 < program {
        page.number(
            b"the program has ",
            program as u64,
            b" bytes, and 8 to 32768 in steps of 8 are meant\n",
        );
    } else if 1024 < rec {
        page.number(
            b"the record has ",
            rec as u64,
            b" bytes, and at most 1024 are meant\n",
        );
    } else if !is_address(p) {
        write_bad_address(page, b"--record-at ", p);
    } else if !is_address(s) {
        write_bad_address(page, b"--stack-at ", s);
    } else {
        write_word(page, b"the record at ", p, b"");
        write_word(
            page,
            b" and the 512 bytes of stack at ",
            s,
            b" overlap: move one with --record-at or --stack-at\n",
        );
    }
}

fn write_bad_address(page: &mut Page, option: &[u8], a: u64)
    ensures { Longer page.old page.new }
{
    write_word(page, option, a, b"");
    page.text(b" is not between 0x10000 and 0x800000000000\n");
}

// Why a run is refused: by the length of the program, by that of the record, by an address, or because the two regions overlap.
pub fn refusal_line(program: usize, rec: usize, p: u64, s: u64, out: &mut [u8]) -> usize
    ensures { result ≤ length out.old }
{
    fill(out, |page| write_refusal(page, program, rec, p, s))
}

// The digit of the exit status that goes with it: 0 for a verdict, 1 for a run that did not come to one, 2 for one that was refused.
pub fn status_of_run(outcome: Outcome) -> u8 {
    match outcome {
        Outcome::Verdict { .. } => b'0',
        Outcome::Fault { .. } | Outcome::Budget { .. } => b'1',
        Outcome::Refused => b'2',
    }
}
