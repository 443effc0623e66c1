// Signs: words moved by half their range, so that one comparison of words compares them as signed numbers, and the low bits of a word extended
// to 64 bits, by one addition and one subtraction of half the range.
ghost use Rattle.std.specs.Prelude.{◌≡◌, ◌-◌, ◌^◌};
ghost use Rattle.word.specs.Word.{cut, extend, moved};

use crate::width::Width;

// Half the range of a word.
fn half<W: Width>() -> u64
    ensures { result ≡ 2 ^ (W.BITS - 1) }
{
    1 << (W::BITS - 1)
}

#[tactic(auto, unfolding(crate::specs::Word::moved, crate::specs::Word::cut))]
pub(crate) fn moved<W: Width>(x: u64) -> u64
    ensures { result ≡ moved W.BITS (cut W.BITS x) }
{
    W::cut(W::cut(x).wrapping_add(half::<W>()))
}

pub fn extend<W: Width>(x: u64) -> u64
    ensures { result ≡ extend W.BITS x }
{
    moved::<W>(x).wrapping_sub(half::<W>())
}
