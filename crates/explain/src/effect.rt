// What an instruction does to what is known, as text.
ghost use Rattle.text.specs.Page.{Longer};

use analysis::Effect;
use listing::value::{write_number, write_value};
use machine::instruction::Operand;
use number::{Number, Refined};
use text::page::Page;

fn write_register(page: &mut Page, before: &[u8], r: u64, n: Number)
    ensures { Longer page.old page.new }
{
    page.number(before, r, b": ");
    write_number(page, n);
}

// What is left of the operands on a way. Where both are one register, what the second tells is kept.
fn write_left(page: &mut Page, dst: u64, operand: Operand, x: Number, y: Number)
    ensures { Longer page.old page.new }
{
    match operand {
        Operand::Immediate(_) => write_register(page, b"r", dst, x),
        Operand::Register(s) if s == dst => write_register(page, b"r", s, y),
        Operand::Register(s) => {
            write_register(page, b"r", dst, x);
            write_register(page, b", r", s, y);
        }
    }
}

// A fork goes on, or jumps.
fn write_fork(page: &mut Page, dst: u64, operand: Operand, onward: Refined, taken: Refined)
    ensures { Longer page.old page.new }
{
    match onward {
        Some((x, y)) => {
            page.text(b"goes on with ");
            write_left(page, dst, operand, x, y);
        }
        None => page.text(b"never goes on"),
    }
    match taken {
        Some((x, y)) => {
            page.text(b"; jumps with ");
            write_left(page, dst, operand, x, y);
        }
        None => page.text(b"; never jumps"),
    }
}

pub fn write_effect(page: &mut Page, effect: Effect)
    ensures { Longer page.old page.new }
{
    page.text(b"-> ");
    match effect {
        Effect::Refuse(_) => page.text(b"refused"),
        Effect::Put { dst, value } => {
            page.number(b"r", dst, b": ");
            write_value(page, value);
        }
        Effect::Keep => page.text(b"stored"),
        Effect::Fork {
            dst,
            operand,
            onward,
            taken,
            ..
        } => write_fork(page, dst, operand, onward, taken),
        Effect::Goto { target } => page.number(b"goes to ", target, b""),
        Effect::Stop => page.text(b"the verdict"),
    }
}
