// An operation of the machine on Numbers, at 64 bits (class 7) and at 32 (class 4).
ghost use Rattle.std.specs.Prelude.{◌≡◌, ◌^◌};
ghost use Rattle.number.specs.Computed.{block, modulo, second, computed};

use crate::range::{everything, ranged};
use crate::sharpen::{share, sharpen};
use bit_calculator::operation;
use number::{Number, Range};
use word::Operation;
use word::width::Width;

// The low bits of the numbers of a range, kept as a range where only they differ.
fn low<W: Width>(s: Range) -> Range
    ensures { result ≡ block (2 ^ W.BITS) s }
{
    let lo = W::cut(s.lo);
    let hi = W::cut(s.hi);
    if s.lo - lo == s.hi - hi {
        Range { lo, hi }
    } else {
        everything::<W>()
    }
}

// The counts of a shift that the numbers of a range are.
#[tactic(auto, unfolding(number::specs::Computed::block))]
fn counts<W: Width>(s: Range) -> Range
    ensures { result ≡ block W.BITS s }
{
    if s.lo / W::BITS == s.hi / W::BITS {
        Range {
            lo: s.lo % W::BITS,
            hi: s.hi % W::BITS,
        }
    } else {
        Range {
            lo: 0,
            hi: W::BITS - 1,
        }
    }
}

fn operand<W: Width>(n: Number) -> Range
    ensures { result ≡ modulo (2 ^ W.BITS) n }
{
    let known = Range {
        lo: W::cut(n.bits.value),
        hi: W::cut(n.bits.top()),
    };
    share(low::<W>(n.range), known)
}

fn count<W: Width>(n: Number) -> Range
    ensures { result ≡ modulo W.BITS n }
{
    let known = Range {
        lo: n.bits.value % W::BITS,
        hi: n.bits.top() % W::BITS,
    };
    share(counts::<W>(n.range), known)
}

// The second operand of a shift is a count.
#[tactic(auto, unfolding(number::specs::Computed::second))]
fn second<W: Width>(op: Operation, b: Number) -> Range
    ensures { result ≡ second W.BITS op b }
{
    match op {
        Operation::Lsh | Operation::Rsh | Operation::Arsh => count::<W>(b),
        _ => operand::<W>(b),
    }
}

pub fn alu<W: Width>(op: Operation, a: Number, b: Number) -> Number
    ensures { result ≡ computed W.BITS op a b }
{
    let bits = operation::alu::<W>(op, a.bits, b.bits);
    let range = ranged::<W>(op, operand::<W>(a), second::<W>(op, b));
    sharpen(bits, low::<W>(range))
}
