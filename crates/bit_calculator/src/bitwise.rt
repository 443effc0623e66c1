// AND, OR and XOR. The least and the greatest numbers give the least and the greatest digits of AND and OR.
#![tactic(auto, unfolding(known_bits::specs::Formula::digits, known_bits::specs::Formula::parity))]

ghost use Rattle.std.specs.Prelude.{◌≡◌};
ghost use Rattle.known_bits.specs.Formula.{digits, parity};

use crate::pair::pack;
use known_bits::Bits;
use word::width::Width;
use word::{Operation, arithmetic};

// Kept: AND and OR in two functions of one form: one over the operation would ask twice a call which it is.
pub fn and<W: Width>(a: Bits, b: Bits) -> Bits
    ensures { result ≡ digits W.BITS Operation.And a b }
{
    let least = arithmetic::and::<W>(a.value, b.value);
    let most = arithmetic::and::<W>(a.top(), b.top());
    pack(least, most ^ least)
}

pub fn or<W: Width>(a: Bits, b: Bits) -> Bits
    ensures { result ≡ digits W.BITS Operation.Or a b }
{
    let least = arithmetic::or::<W>(a.value, b.value);
    let most = arithmetic::or::<W>(a.top(), b.top());
    pack(least, most ^ least)
}

pub fn xor<W: Width>(a: Bits, b: Bits) -> Bits
    ensures { result ≡ parity W.BITS a b }
{
    pack(arithmetic::xor::<W>(a.value, b.value), a.mask | b.mask)
}
