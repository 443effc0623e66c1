// Notes under a line of the listing.
ghost use Rattle.text.specs.Page.{Longer};

use text::page::Page;

// Each note stands on a line of its own.
pub fn start_note(page: &mut Page)
    ensures { Longer page.old page.new }
{
    page.text(b"\n         \t; ");
}

pub fn write_note(page: &mut Page, text: &[u8])
    ensures { Longer page.old page.new }
{
    start_note(page);
    page.text(text);
}

// A number of bytes.
pub fn write_count(page: &mut Page, count: u64)
    ensures { Longer page.old page.new }
{
    page.number(b"", count, if count == 1 { b" byte" } else { b" bytes" });
}
