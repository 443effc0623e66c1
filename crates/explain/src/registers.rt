// Registers by name, with what is known of them.
ghost use Rattle.text.specs.Page.{Longer};

use crate::known::write_known;
use crate::place::Place;
use crate::reads::reads_of;
use text::page::Page;

fn write_register(page: &mut Page, before: &[u8], place: Place, r: u64)
    ensures { Longer page.old page.new }
{
    page.number(before, r, b": ");
    write_known(page, place.annotated.scratch, place.count(), place.index, r);
}

// The registers that the instruction reads, one that it reads twice told once, and a space after them.
pub fn write_reads(page: &mut Page, place: Place)
    ensures { Longer page.old page.new }
{
    let Some((r, second)) = reads_of(place.instruction()) else {
        return;
    };
    write_register(page, b"r", place, r);
    if let Some(s) = second.filter(|s| *s != r) {
        write_register(page, b", r", place, s);
    }
    page.letter(b' ');
}
