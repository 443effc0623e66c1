// The registers before a step and after it.
ghost use Rattle.text.specs.Page.{Longer};

use crate::numbers::write_word;
use dispatch::answer::has;
use text::page::Page;

// The numbers in the registers, and which of those are set, a bit for each.
#[derive(Clone, Copy)]
pub struct Registers {
    pub numbers: [u64; 16],
    pub live: u64,
}

// Each register whose number is another than before, or that had none.
pub fn write_changes(page: &mut Page, before: &Registers, after: &Registers)
    ensures { Longer page.old page.new }
{
    for k in 0..11 {
        let register = k as u64;
        let fresh = !has(before.live, register) && has(after.live, register);
        if fresh || before.numbers[k] != after.numbers[k] {
            page.number(b"\t; r", register, b" = ");
            write_word(page, b"", after.numbers[k], b"");
        }
    }
}
