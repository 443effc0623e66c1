// ADD, SUB and NEG: the least and the greatest carry, or borrow, are those of two ends, and a bit is unknown where these give
// different results or where an operand's bit is.
#![tactic(auto, unfolding(known_bits::specs::Formula::sum, known_bits::specs::Formula::difference))]

ghost use Rattle.std.specs.Prelude.{◌≡◌};
ghost use Rattle.known_bits.specs.Formula.{sum, difference};
ghost use Rattle.known_bits.specs.Pair.{exactly};

use crate::pair::pack_spread;
use known_bits::Bits;
use word::arithmetic;
use word::width::Width;

pub fn add<W: Width>(a: Bits, b: Bits) -> Bits
    ensures { result ≡ sum W.BITS a b }
{
    let lo = arithmetic::add::<W>(a.value, b.value);
    let hi = arithmetic::add::<W>(a.top(), b.top());
    pack_spread(lo, lo, hi, a.mask, b.mask)
}

// The ends are crossed: a borrow grows with b and falls with a.
pub fn sub<W: Width>(a: Bits, b: Bits) -> Bits
    ensures { result ≡ difference W.BITS a b }
{
    let s = arithmetic::sub::<W>(a.value, b.value);
    let lo = arithmetic::sub::<W>(a.top(), b.value);
    let hi = arithmetic::sub::<W>(a.value, b.top());
    pack_spread(s, lo, hi, a.mask, b.mask)
}

pub fn neg<W: Width>(a: Bits) -> Bits
    ensures { result ≡ difference W.BITS (exactly 0) a }
{
    sub::<W>(Bits::exactly(0), a)
}
