// What a request line says. Words are separated by spaces; spaces before the first and after the last word are ignored.
ghost use Rattle.std.specs.Prelude.{◌≡◌, length};
ghost use Rattle.console.specs.Request.{Filled, word, after, blank, numbers_of};

use text::hex::read_hex;
use text::number::{read_decimal, read_number};
use text::scan::{place_of, place_of_other};

// The words of a line, of which `rest` is not read yet.
#[derive(Clone, Copy)]
pub struct Words<'a> {
    pub rest: &'a [u8],
}

// The numbers of `run`, in their order.
#[derive(Clone, Copy)]
pub struct Numbers {
    pub size: u64,
    pub p: u64,
    pub s: u64,
    pub budget: u64,
}

impl<'a> Words<'a> {
    // The next word: an empty one behind the last.
    #[tactic(auto, using(text::proofs::Words::place_or_length, text::proofs::Words::place_of_other_or_length, text::proofs::Words::other_inside, text::proofs::Words::leading_inside))]
    pub fn take(&mut self) -> &'a [u8]
        ensures word { result.now ≡ word self.old.rest.now }
        ensures rest { self.new.rest.now ≡ after self.old.rest.now }
    {
        let line = self.rest;
        let start = place_of_other(line, b' ').unwrap_or(line.len());
        let rest = &line[start..];
        let end = place_of(rest, b' ').unwrap_or(rest.len());
        self.rest = &rest[end..];
        &rest[..end]
    }

    // No word is left.
    pub fn is_empty(&self) -> bool
        ensures { result ≡ blank self.now.rest.now }
    {
        place_of_other(self.rest, b' ').is_none()
    }
}

// R P S BUDGET.
#[tactic(auto, unfolding(crate::specs::Request::numbers_of, crate::specs::Request::four))]
pub fn read_numbers(words: &mut Words<'_>) -> Option<Numbers>
    ensures numbers { result ≡ numbers_of words.old.rest.now }
    ensures rest { words.new.rest.now ≡ after (after (after (after words.old.rest.now))) }
{
    let size = words.take();
    let p = words.take();
    let s = words.take();
    let budget = words.take();
    Some(Numbers {
        size: read_decimal(size)?,
        p: read_number(p)?,
        s: read_number(s)?,
        budget: read_decimal(budget)?,
    })
}

// How many bytes PROGRAM RECORD spell, and no word after them: they go to the starts of `program` and `rec`.
// Kept: how many they are, and no slices, of which nothing would be said of what is lent.
#[tactic(auto, unfolding(crate::specs::Request::sizes_of, crate::specs::Request::two))]
pub fn read_bytes(
    words: &mut Words<'_>,
    program: &mut [u8],
    rec: &mut [u8],
) -> Option<(usize, usize)>
    ensures { Filled words.old.rest.now program.new rec.new (length program.old) (length rec.old) result }
{
    let first = words.take();
    let second = words.take();
    if !words.is_empty() {
        return None;
    }
    let n = read_hex(first, program)?;
    let k = read_hex(second, rec)?;
    Some((n, k))
}
