// Shifts by a count that is not known: what the least and the greatest count leave of the zeros, or of the sign, of a pair.
ghost use Rattle.std.specs.Prelude.{◌≡◌, ◌<◌};
ghost use Rattle.known_bits.specs.Formula.{left_mask, signed_right, shifted_unknown};
ghost use Rattle.known_bits.specs.Shift.{operation};

use crate::masks::{from_bit, trailing, up_to};
use crate::pair::pack;
use known_bits::{Bits, Shift};
use word::width::Width;

// Numbers with bits among t's, shifted left by a count from least to most.
#[tactic(auto, unfolding(known_bits::specs::Formula::left_mask, known_bits::specs::Formula::highest_shifted))]
fn left_mask(t: u64, least: u64, most: u64) -> u64
    requires least_is_a_count { least < 64 }
    requires most_is_a_count { most < 64 }
    ensures { result ≡ left_mask t least most }
{
    from_bit(trailing(t) + least) & up_to(t.saturating_mul(1 << most))
}

// Numbers from v to t, shifted with their sign by at least n.
#[tactic(auto, unfolding(known_bits::specs::Formula::signed_right))]
fn signed_right<W: Width>(v: u64, t: u64, n: u64) -> Bits
    requires { n < 64 }
    ensures { result ≡ signed_right W.BITS v t n }
{
    let last = W::cut(u64::MAX);
    if t <= last / 2 {
        Bits::among(up_to(t >> n))
    } else if v <= last / 2 {
        Bits::among(last)
    } else {
        pack(last, up_to(last.saturating_sub(v) >> n))
    }
}

#[tactic(auto, unfolding(known_bits::specs::Formula::shifted_unknown, known_bits::specs::Formula::low, known_bits::specs::Formula::among, known_bits::specs::Shift::operation))]
pub fn unknown<W: Width>(shift: Shift, a: Bits, b: Bits) -> Bits
    ensures { result ≡ shifted_unknown W.BITS (operation shift) a b }
{
    let least = b.value % W::BITS;
    let most = b.top() % W::BITS;
    match shift {
        Shift::Left => Bits::among(W::cut(left_mask(a.top(), least, most))),
        Shift::Right => Bits::among(up_to(a.top() >> least)),
        Shift::Signed => signed_right::<W>(a.value, a.top(), least),
    }
}
