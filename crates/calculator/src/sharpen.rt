// A Number from a pair and a range, each sharpening the other; Numbers known without a calculation, and the join.
ghost use Rattle.std.specs.Prelude.{◌≡◌, ℕ, ◌*◌, ◌-◌, ◌^◌};
ghost use Rattle.number.specs.Compare.{common};
ghost use Rattle.number.specs.Computed as computed;
ghost use Rattle.number.specs.Sharpen.{narrowed, learnt, sharpened, exact, loaded, joined_number};

use bit_calculator::masks::up_to;
use bit_calculator::paths;
use known_bits::Bits;
use number::{Number, Range};

// What two ranges have in common.
#[tactic(auto, unfolding(number::specs::Compare::common))]
pub fn share(u: Range, v: Range) -> Range
    ensures { result ≡ common u v }
{
    Range {
        lo: u.lo.max(v.lo),
        hi: u.hi.min(v.hi),
    }
}

// The part of a range between the least and the greatest number of a pair.
#[tactic(auto, unfolding(number::specs::Sharpen::narrowed, number::specs::Compare::common))]
pub fn narrow(p: Bits, s: Range) -> Range
    ensures { result ≡ narrowed p s }
{
    share(
        s,
        Range {
            lo: p.value,
            hi: p.top(),
        },
    )
}

// A pair with the leading bits that the ends of a range have in common.
#[tactic(auto, unfolding(number::specs::Sharpen::learnt, number::specs::Sharpen::still_unknown))]
fn learn(p: Bits, s: Range) -> Bits
    ensures { result ≡ learnt p s }
{
    let mask = p.mask & up_to(s.lo ^ s.hi);
    Bits {
        value: p.value | (s.lo & (p.mask ^ mask)),
        mask,
    }
}

#[tactic(auto, unfolding(number::specs::Sharpen::sharpened))]
pub fn sharpen(p: Bits, s: Range) -> Number
    ensures { result ≡ sharpened p s }
{
    let first = narrow(p, s);
    let bits = learn(p, first);
    Number {
        bits,
        range: narrow(bits, first),
    }
}

// The number x.
#[tactic(auto, unfolding(number::specs::Sharpen::exact, number::specs::Sharpen::just))]
pub fn exactly(x: u64) -> Number
    ensures { result ≡ exact x }
{
    Number {
        bits: Bits::exactly(x),
        range: Range { lo: x, hi: x },
    }
}

// What a load of k bytes gives, where last is the greatest number of as many.
#[tactic(auto, unfolding(number::specs::Sharpen::loaded, number::specs::Sharpen::everything))]
pub fn load(last: u64) -> Number
    ensures { (k : ℕ) → last ≡ 2 ^ (8 * k) - 1 → result ≡ loaded k }
{
    Number {
        bits: Bits::among(last),
        range: Range { lo: 0, hi: last },
    }
}

#[tactic(auto, unfolding(number::specs::Sharpen::joined_number, number::specs::Sharpen::joined_range))]
pub fn join(a: Number, b: Number) -> Number
    ensures { result ≡ joined_number a b }
{
    Number {
        bits: paths::join(a.bits, b.bits),
        range: Range {
            lo: a.range.lo.min(b.range.lo),
            hi: a.range.hi.max(b.range.hi),
        },
    }
}

// Whether size bytes at each of these offsets lie below a limit.
pub fn fits(offset: Number, size: u64, limit: u64) -> bool
    ensures { result ≡ computed.fits offset size limit }
{
    size <= limit && offset.range.hi <= limit - size
}
