// What a way out of a comparison of the low halves (class 6) tells of the two whole Numbers.
ghost use Rattle.std.specs.Prelude.{◌≡◌, true, false, MatchOption};
ghost use Rattle.number.specs.Compare as defined;
ghost use Rattle.number.specs.Halves as halved;

use crate::compare;
use crate::compare::{first_of_each, settle};
use crate::operation::alu;
use crate::sharpen::{exactly, share};
use known_bits::Bits;
use number::{Number, Range, Refined};
use word::width::W32;
use word::{Comparison, Operation};

// A signed order is this order of the halves moved by half their range.
#[tactic(auto, unfolding(number::specs::Halves::unsigned, number::specs::Halves::signed))]
fn order_of_moved(c: Comparison) -> Option<Comparison>
    ensures { MatchOption result ((halved.signed c ≡ false) × (halved.unsigned c ≡ c)) (λ o. (halved.signed c ≡ true) × (halved.unsigned c ≡ o)) }
{
    match c {
        Comparison::Sgt => Some(Comparison::Gt),
        Comparison::Sge => Some(Comparison::Ge),
        Comparison::Slt => Some(Comparison::Lt),
        Comparison::Sle => Some(Comparison::Le),
        _ => None,
    }
}

#[tactic(auto, unfolding(number::specs::Halves::low_half))]
fn low_half(n: Number) -> Number
    ensures { result ≡ halved.low_half n }
{
    alu::<W32>(Operation::Mov, n, n)
}

// The low half moved by half its range; moved again, it is back.
#[tactic(auto, unfolding(number::specs::Halves::moved_half))]
fn moved_half(n: Number) -> Number
    ensures { result ≡ halved.moved_half n }
{
    alu::<W32>(Operation::Add, n, exactly(1 << 31))
}

// What n and the moved half that was compared know of the low half.
#[tactic(auto, unfolding(number::specs::Compare::refined, number::specs::Compare::taken))]
fn low_by(n: Number, u: Number) -> Refined
    ensures { result ≡ defined.equal (halved.low_half n) (halved.moved_half u) }
{
    compare::refine(Comparison::Eq, true, low_half(n), moved_half(u))
}

// What is told of moved halves, as that of the low halves.
#[tactic(auto, unfolding(number::specs::Halves::moved_back))]
fn moved_back(d: Number, s: Number, way: Refined) -> Refined
    ensures { result ≡ halved.moved_back d s way }
{
    let (u, v) = way?;
    first_of_each(low_by(d, u), low_by(s, v))
}

// What is told of the low halves.
#[tactic(auto, unfolding(number::specs::Halves::low_halves, number::specs::Halves::compared))]
fn low_halves(c: Comparison, way: bool, d: Number, s: Number) -> Refined
    ensures { result ≡ halved.low_halves c d s (defined.refined (halved.unsigned c) way (halved.compared c d) (halved.compared c s)) }
{
    match order_of_moved(c) {
        Some(order) => moved_back(
            d,
            s,
            compare::refine(order, way, moved_half(d), moved_half(s)),
        ),
        None => compare::refine(c, way, low_half(d), low_half(s)),
    }
}

// The upper half of x and the low half of y.
#[tactic(auto, unfolding(number::specs::Halves::halves))]
fn halves(x: u64, y: u64) -> u64
    ensures { result ≡ halved.halves x y }
{
    x / 4294967296 * 4294967296 + y % 4294967296
}

#[tactic(auto, unfolding(number::specs::Halves::halves_of_bits))]
fn halves_of_bits(p: Bits, q: Bits) -> Bits
    ensures { result ≡ halved.halves_of_bits p q }
{
    Bits {
        value: halves(p.value, q.value),
        mask: halves(p.mask, q.mask),
    }
}

// The range of the whole is that of its low half only where the upper half is 0.
#[tactic(auto, unfolding(number::specs::Halves::halves_of_range))]
fn halves_of_range(s: Range, t: Range) -> Range
    ensures { result ≡ halved.halves_of_range s t }
{
    if s.hi < 4294967296 { share(s, t) } else { s }
}

// n with the low half l.
#[tactic(auto, unfolding(number::specs::Halves::with_low))]
fn with_low(n: Number, l: Number) -> Number
    ensures { result ≡ halved.with_low n l }
{
    Number {
        bits: halves_of_bits(n.bits, l.bits),
        range: halves_of_range(n.range, l.range),
    }
}

// What is told of the low halves, as that of the whole numbers.
#[tactic(auto, unfolding(number::specs::Halves::whole))]
fn whole(d: Number, s: Number, way: Refined) -> Refined
    ensures { result ≡ halved.whole d s way }
{
    let (l, m) = way?;
    settle(with_low(d, l), with_low(s, m))
}

// What is left of two Numbers on the way of a comparison of their low halves that is taken, or that is not.
#[tactic(auto, unfolding(number::specs::Halves::refined32, number::specs::Halves::taken32, number::specs::Halves::not_taken32))]
pub fn refine(c: Comparison, way: bool, d: Number, s: Number) -> Refined
    ensures { result ≡ halved.refined32 c way d s }
{
    whole(d, s, low_halves(c, way, d, s))
}
