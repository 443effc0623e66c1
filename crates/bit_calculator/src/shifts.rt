// The three shifts, by a count that is known, is one of two, or is neither. A count is the low 6 bits of a pair, at 32 bits the low 5.
// For operands that are cut.
ghost use Rattle.std.specs.Prelude.{◌≡◌};
ghost use Rattle.word.specs.Word.{alu};
ghost use Rattle.known_bits.specs.Formula.{shifted_by, shifted};
ghost use Rattle.known_bits.specs.Shift.{operation};

use crate::counts::unknown;
use crate::paths::join;
use known_bits::{Bits, Shift};
use word::arithmetic::{arsh, lsh, rsh};
use word::width::Width;

#[tactic(auto, unfolding(known_bits::specs::Shift::operation))]
fn moved<W: Width>(shift: Shift, x: u64, n: u64) -> u64
    ensures { result ≡ alu W.BITS (operation shift) x n }
{
    match shift {
        Shift::Left => lsh::<W>(x, n),
        Shift::Right => rsh::<W>(x, n),
        Shift::Signed => arsh::<W>(x, n),
    }
}

// Value and mask are shifted alike: an unknown sign enters as unknown bits.
#[tactic(auto, unfolding(known_bits::specs::Formula::shifted_by))]
fn by<W: Width>(shift: Shift, a: Bits, n: u64) -> Bits
    ensures { result ≡ shifted_by W.BITS (operation shift) a n }
{
    Bits {
        value: moved::<W>(shift, a.value, n),
        mask: moved::<W>(shift, a.mask, n),
    }
}

pub fn shift<W: Width>(shift: Shift, a: Bits, b: Bits) -> Bits
    ensures { result ≡ shifted W.BITS (operation shift) a b }
{
    let m = b.mask % W::BITS;
    if m == 0 {
        by::<W>(shift, a, b.value)
    } else if m & (m - 1) == 0 {
        join(by::<W>(shift, a, b.value), by::<W>(shift, a, b.top()))
    } else {
        unknown::<W>(shift, a, b)
    }
}
