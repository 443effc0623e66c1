// A register that may not be read as an instruction reads it: it is unset, mixed, or holds an address; and what would help.
ghost use Rattle.text.specs.Page.{Longer};

use crate::known::write_told;
use crate::note::{start_note, write_note};
use crate::place::Place;
use crate::reads::reads_of;
use analysis::{Gone, Value};
use machine::instruction::Instruction;
use text::page::Page;

// Where an instruction reads an address that it may not.
#[derive(Clone, Copy)]
enum Use {
    Arithmetic,
    Comparison,
    Store,
    Verdict,
}

impl Use {
    fn of(instruction: Instruction) -> Use {
        match instruction {
            Instruction::Jump { .. } => Use::Comparison,
            Instruction::Exit => Use::Verdict,
            Instruction::Store { .. } => Use::Store,
            _ => Use::Arithmetic,
        }
    }

    fn rule(self) -> &'static [u8] {
        match self {
            Use::Arithmetic => b"): it may not be used in this arithmetic",
            Use::Comparison => b"): it may not be compared",
            Use::Store => b"): it may not be stored",
            Use::Verdict => b"): it may not be returned",
        }
    }

    // What to do instead.
    fn help(self) -> &'static [u8] {
        match self {
            Use::Arithmetic =>
                b"help: an address may be copied and moved by a number, with 64 bits",
            Use::Comparison => b"help: compare the number that was added to it",
            Use::Store => b"help: keep addresses in registers",
            Use::Verdict => b"help: return a number in r0",
        }
    }
}

fn is_unset(place: Place, r: u64) -> bool {
    matches!(place.known(r), Some(Value::Unusable(Gone::Never)))
}

fn is_mixed(place: Place, r: u64) -> bool {
    matches!(place.known(r), Some(Value::Unusable(Gone::Mixed)))
}

fn is_address(place: Place, r: u64) -> bool {
    matches!(place.known(r), Some(Value::Address(_, _)))
}

// The first of the registers read that is unset.
pub fn write_unset_read(page: &mut Page, place: Place)
    ensures { Longer page.old page.new }
{
    let Some((r, second)) = reads_of(place.instruction()) else {
        return;
    };
    let unset = if is_unset(place, r) {
        r
    } else {
        second.unwrap_or(r)
    };
    start_note(page);
    page.number(
        b"r",
        unset,
        b" is read, and it is unset on some path that comes here",
    );
    write_note(page, b"help: set it on every path before this");
}

fn write_mixed(page: &mut Page, r: u64)
    ensures { Longer page.old page.new }
{
    start_note(page);
    page.number(
        b"r",
        r,
        b" is mixed: an address on one path, something else on another",
    );
    write_note(
        page,
        b"help: use it before the paths join, or set it anew after",
    );
}

#[tactic(auto, using(text::proofs::Pages::longer_wrote))]
fn write_address(page: &mut Page, place: Place, r: u64, used: Use)
    ensures { Longer page.old page.new }
{
    start_note(page);
    page.number(b"r", r, b" holds an address (");
    write_told(page, place.known(r));
    page.text(used.rule());
    write_note(page, used.help());
}

// Of the registers read the first that is mixed, or else the first that is an address where none may be: a store's first is one rightly.
pub fn write_leak(page: &mut Page, place: Place)
    ensures { Longer page.old page.new }
{
    let Some((r, second)) = reads_of(place.instruction()) else {
        return;
    };
    let s = second.unwrap_or(r);
    if is_mixed(place, r) {
        return write_mixed(page, r);
    }
    if is_mixed(place, s) {
        return write_mixed(page, s);
    }
    let used = Use::of(place.instruction());
    match used {
        Use::Store => write_address(page, place, s, used),
        _ if is_address(place, r) => write_address(page, place, r, used),
        _ => write_address(page, place, s, used),
    }
}
