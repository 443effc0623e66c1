// An index of a program as a line: its number, its bytes, and the instruction that they are.
ghost use Rattle.text.specs.Page.{Longer};
ghost use Rattle.std.specs.Prelude.{◌≤◌, length};
ghost use Rattle.listing.specs.Announced.{Announced};

use crate::instruction::write_instruction;
use crate::rule::{write_byte, write_rule};
use machine::instruction::{Instruction, decode};
use text::page::{Page, fill};

// The number, with spaces before it where it has fewer than eight digits.
fn write_index(page: &mut Page, i: u64)
    ensures { Longer page.old page.new }
{
    let more = i.checked_ilog10().unwrap_or(0) as usize;
    page.text(&b"       "[more.min(7)..]);
    page.decimal(i);
}

fn write_bytes(page: &mut Page, bytes: &[u8])
    ensures { Longer page.old page.new }
{
    for (j, b) in bytes.iter().enumerate() {
        if j > 0 {
            page.letter(b' ');
        }
        write_byte(page, *b);
    }
}

// What eight bytes are, or the fewer that a program ends in.
fn write_meaning(page: &mut Page, bytes: &[u8])
    ensures { Longer page.old page.new }
{
    match bytes.len() {
        1 => page.text(b"<cut short: 1 byte of 8>"),
        n @ (0 | 2..8) => page.number(b"<cut short: ", n as u64, b" bytes of 8>"),
        _ => match decode(bytes, 0) {
            Instruction::NoInstruction => {
                page.text(b"<no instruction: ");
                write_rule(page, bytes);
                page.letter(b'>');
            }
            instruction => write_instruction(page, instruction),
        },
    }
}

// The bytes of index i: eight, or the fewer that a program ends in, or past it none.
fn bytes_at(program: &[u8], i: usize) -> &[u8] {
    let rest = program.get(i.saturating_mul(8)..).unwrap_or(&[]);
    &rest[..rest.len().min(8)]
}

// The line of index i without its end.
pub fn write_line(page: &mut Page, program: &[u8], i: usize)
    ensures { Longer page.old page.new }
{
    let bytes = bytes_at(program, i);
    write_index(page, i as u64);
    page.text(b":\t");
    write_bytes(page, bytes);
    page.letter(b'\t');
    write_meaning(page, bytes);
}

// Ends a line at `at`. Where there is no room for the end, or just room, the last four characters of `out` say that text may be missing.
pub fn end_line(out: &mut [u8], at: usize) -> usize
    requires { at ≤ length out.old }
    ensures { Announced out.new result }
{
    let n = out.len();
    let end = n.min(at + 1);
    if at < n {
        out[at] = b'\n';
    }
    if end == n && n >= 4 {
        out[n - 4..].copy_from_slice(b"...\n");
    }
    end
}

// The line of index i at the start of `out`; the answer is its length. A line whose number has no more than eight digits has at most 94
// characters.
pub fn show_line(program: &[u8], i: usize, out: &mut [u8]) -> usize
    ensures { Announced out.new result }
{
    let at = fill(out, |page| write_line(page, program, i));
    end_line(out, at)
}
