// What follows the ways of a program: the pair where two paths join, and the cut to a width.
ghost use Rattle.std.specs.Prelude.{◌≡◌};
ghost use Rattle.known_bits.specs.Formula.{joined, low};
ghost use Rattle.known_bits.specs.KnownBits.{Well, Sound, Best, Cuts, Either};

use crate::pair::pack_spread;
use known_bits::Bits;
use word::width::Width;

// Unknown where either is, and where the values differ. A pair without the form loses no number either.
pub fn join(a: Bits, b: Bits) -> Bits
    ensures value { result ≡ joined a b }
    ensures best { Well 64 a → Well 64 b → Best 64 (Either a b) result }
    ensures sound { Sound 64 (Either a b) result }
{
    pack_spread(a.value, b.value, a.value, a.mask, b.mask)
}

#[tactic(auto, unfolding(known_bits::specs::Formula::low))]
pub fn cut<W: Width>(a: Bits) -> Bits
    ensures value { result ≡ low W.BITS a }
    ensures best { Well 64 a → Best 64 (Cuts W.BITS a) result }
{
    Bits {
        value: W::cut(a.value),
        mask: W::cut(a.mask),
    }
}
