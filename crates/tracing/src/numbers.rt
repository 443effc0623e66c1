// A word within a sentence.
ghost use Rattle.text.specs.Page.{Longer};

use text::page::Page;

// A number in hexadecimal, with what comes before and after it.
pub fn write_word(page: &mut Page, before: &[u8], n: u64, after: &[u8])
    ensures { Longer page.old page.new }
{
    page.text(before);
    page.text(b"0x");
    page.hexadecimal(n);
    page.text(after);
}
