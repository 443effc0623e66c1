// Why a program is refused at an index: the reason, what could happen there, and what would help.
ghost use Rattle.text.specs.Page.{Longer};

use crate::access::write_access;
use crate::leak::{write_leak, write_unset_read};
use crate::note::{start_note, write_count, write_note};
use crate::place::Place;
use analysis::Reason;
use listing::rule::write_rule;
use machine::instruction::Instruction;
use reasons::{reason_number, sentence_of};
use text::page::Page;

// The rule that the bytes break, which are no instruction.
fn write_no_code(page: &mut Page, place: Place)
    ensures { Longer page.old page.new }
{
    let bytes = place.bytes();
    if !bytes.is_empty() {
        start_note(page);
        write_rule(page, bytes);
    }
}

fn write_last(page: &mut Page)
    ensures { Longer page.old page.new }
{
    write_note(page, b"it is the last, and neither exit nor goto");
    write_note(page, b"help: end the program in exit");
}

// A jump that leads out is told by its target; what is left is the last instruction.
fn write_jump_out(page: &mut Page, place: Place, off: u64)
    ensures { Longer page.old page.new }
{
    let target = (place.index as u64).wrapping_add(1).wrapping_add(off);
    let count = place.count() as u64;
    if target < count {
        return write_last(page);
    }
    start_note(page);
    page.number(b"it jumps to index ", target, b"");
    page.number(b"; the program ends before index ", count, b"");
}

fn write_way_out(page: &mut Page, place: Place)
    ensures { Longer page.old page.new }
{
    match place.instruction() {
        Instruction::Jump { off, .. } | Instruction::Always { off } => {
            write_jump_out(page, place, off);
        }
        _ => write_last(page),
    }
}

// Only exit and goto don't go on, and index 0 is never dead.
fn write_dead(page: &mut Page, place: Place)
    ensures { Longer page.old page.new }
{
    let Some(index) = place.index.checked_sub(1) else {
        return;
    };
    write_note(page, b"no jump comes here, and the ");
    page.text(match (Place { index, ..place }).instruction() {
        Instruction::Exit => b"exit",
        _ => b"goto",
    });
    page.number(b" at index ", index as u64, b" does not go on to it");
    write_note(page, b"help: remove it, or jump to it");
}

fn write_why(page: &mut Page, place: Place, reason: Reason)
    ensures { Longer page.old page.new }
{
    match reason {
        Reason::BadLength => {
            write_note(page, b"the program has ");
            write_count(page, place.annotated.program.len() as u64);
        }
        Reason::LongRecord => {
            write_note(page, b"the record has ");
            write_count(page, place.annotated.record_len);
        }
        Reason::NoCode => write_no_code(page, place),
        Reason::WritesR10 => {
            write_note(page, b"help: r10 stays the stack's end: copy it first");
        }
        Reason::JumpsBack => {
            write_note(page, b"jumps go forward only, so every program ends");
            write_note(page, b"help: write the repetition out");
        }
        Reason::JumpsOut => write_way_out(page, place),
        Reason::ReadsUnset => write_unset_read(page, place),
        Reason::Outside => write_access(page, place),
        Reason::LeaksAddress => write_leak(page, place),
        Reason::DeadCode => write_dead(page, place),
    }
}

pub fn write_refusal(page: &mut Page, place: Place, reason: Reason)
    ensures { Longer page.old page.new }
{
    start_note(page);
    page.number(b"refused: reason ", reason_number(reason), b": ");
    page.text(sentence_of(reason));
    write_why(page, place, reason);
}
