// What is known of a register at an index, as text: of the state that `annotate` left there.
ghost use Rattle.text.specs.Page.{Wrote};
ghost use Rattle.explain.specs.Known.{told_text, Tells};

use analysis::Value;
use listing::value::write_value;
use text::page::Page;
use verifier::inspect::register_at;

#[tactic(auto, unfolding(crate::specs::Known::told_text))]
pub fn write_told(page: &mut Page, known: Option<Value>)
    ensures { Wrote page.old (told_text known) page.new }
{
    match known {
        Some(value) => write_value(page, value),
        None => page.text(b"not reached"),
    }
}

// What is known of register r at index i of n. In scratch memory that has words for n indices, that is what waits at i.
#[tactic(auto, unfolding(crate::specs::Known::known_text))]
pub fn write_known(page: &mut Page, scratch: &[u64], n: usize, i: usize, r: u64)
    ensures { Tells n scratch.now i r page.old page.new }
{
    write_told(page, register_at(scratch, n, i, r));
}
