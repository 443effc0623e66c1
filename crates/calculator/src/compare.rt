// What a way out of a comparison tells of the two Numbers compared.
ghost use Rattle.std.specs.Prelude.{◌≡◌};
ghost use Rattle.number.specs.Compare as defined;

use crate::operation::alu;
use crate::sharpen::{exactly, narrow, share, sharpen};
use bit_calculator::learn::{jset_not_taken, meet};
use number::{Number, Range, Refined};
use word::width::W64;
use word::{Comparison, Operation};

// A way on which a range is empty is excluded.
#[tactic(auto, unfolding(number::specs::Compare::settled))]
pub fn settle(d: Number, s: Number) -> Refined
    ensures { result ≡ defined.settled d s }
{
    if d.range.lo <= d.range.hi && s.range.lo <= s.range.hi {
        Some((d, s))
    } else {
        None
    }
}

// The range of a Number, as far as its known bits allow.
#[tactic(auto, unfolding(number::specs::Compare::bounds))]
fn bound(n: Number) -> Range
    ensures { result ≡ defined.bounds n }
{
    narrow(n.bits, n.range)
}

// x + gap is at most y. No sum is made before it is known to be at most the greatest y.
#[tactic(auto, unfolding(number::specs::Compare::ordered, number::specs::Compare::ordered_in))]
fn order(gap: u64, d: Number, s: Number) -> Refined
    ensures { result ≡ defined.ordered gap d s }
{
    let u = bound(d);
    let v = bound(s);
    let highest = v.hi.checked_sub(gap)?;
    if highest < u.lo {
        return None;
    }
    let below = Range {
        lo: u.lo,
        hi: u.hi.min(highest),
    };
    let above = Range {
        lo: v.lo.max(u.lo + gap),
        hi: v.hi,
    };
    settle(sharpen(d.bits, below), sharpen(s.bits, above))
}

// The two numbers exchanged.
#[tactic(auto, unfolding(number::specs::Compare::exchanged))]
fn exchange(way: Refined) -> Refined
    ensures { result ≡ defined.exchanged way }
{
    let (d, s) = way?;
    Some((s, d))
}

// y + gap is at most x.
#[tactic(auto, unfolding(number::specs::Compare::above))]
fn order_above(gap: u64, d: Number, s: Number) -> Refined
    ensures { result ≡ defined.above gap d s }
{
    exchange(order(gap, s, d))
}

// Both are what the two have in common.
#[tactic(auto, unfolding(number::specs::Compare::equal, number::specs::Compare::equal_by))]
fn equate(d: Number, s: Number) -> Refined
    ensures { result ≡ defined.equal d s }
{
    let bits = meet(d.bits, s.bits)?;
    let both = sharpen(bits, share(d.range, s.range));
    settle(both, both)
}

// A number that is no end of a range cannot be taken out of it.
#[tactic(auto, unfolding(number::specs::Compare::without, number::specs::Compare::empty))]
fn take_out(k: u64, u: Range) -> Range
    ensures { result ≡ defined.without k u }
{
    let empty = Range { lo: 1, hi: 0 };
    if u.lo == k {
        if k < u.hi {
            Range {
                lo: k + 1,
                hi: u.hi,
            }
        } else {
            empty
        }
    } else if u.hi == k {
        if u.lo < k {
            Range {
                lo: u.lo,
                hi: k - 1,
            }
        } else {
            empty
        }
    } else {
        u
    }
}

// Only a number that is known is taken out.
#[tactic(auto, unfolding(number::specs::Compare::apart_from))]
fn take_out_known(u: Range, v: Range) -> Range
    ensures { result ≡ defined.apart_from u v }
{
    if v.lo == v.hi { take_out(v.lo, u) } else { u }
}

// A number that is known is no end of the other's range any more.
#[tactic(auto, unfolding(number::specs::Compare::unequal))]
fn separate(d: Number, s: Number) -> Refined
    ensures { result ≡ defined.unequal d s }
{
    let u = bound(d);
    let v = bound(s);
    settle(
        sharpen(d.bits, take_out_known(u, v)),
        sharpen(s.bits, take_out_known(v, u)),
    )
}

#[tactic(auto, unfolding(number::specs::Compare::resharpened))]
fn resharpen(n: Number) -> Number
    ensures { result ≡ defined.resharpened n }
{
    sharpen(n.bits, n.range)
}

// JSET not taken: neither has a bit that the other is known to have. Excluded where both are known to have one.
#[tactic(auto, unfolding(number::specs::Compare::disjoint, number::specs::Compare::disjoint_of, number::specs::Compare::disjoint_by))]
fn disjoin(d: Number, s: Number) -> Refined
    ensures { result ≡ defined.disjoint d s }
{
    let x = resharpen(d);
    let y = resharpen(s);
    let p = jset_not_taken(x.bits, y.bits.value)?;
    let q = jset_not_taken(y.bits, x.bits.value)?;
    settle(sharpen(p, x.range), sharpen(q, y.range))
}

// JSET taken: some bit in common is possible.
#[tactic(auto, unfolding(number::specs::Compare::overlapping, number::specs::Compare::overlapping_of))]
fn overlap(d: Number, s: Number) -> Refined
    ensures { result ≡ defined.overlapping d s }
{
    let x = resharpen(d);
    let y = resharpen(s);
    if x.bits.top() & y.bits.top() == 0 {
        return None;
    }
    settle(x, y)
}

// Signed orders are the orders of the numbers moved by half the range, which is its own way back.
#[tactic(auto, unfolding(number::specs::Compare::turned))]
fn turn(n: Number) -> Number
    ensures { result ≡ defined.turned n }
{
    alu::<W64>(Operation::Add, n, exactly(1 << 63))
}

#[tactic(auto, unfolding(number::specs::Compare::firsts))]
pub fn first_of_each(one: Refined, other: Refined) -> Refined
    ensures { result ≡ defined.firsts one other }
{
    let (m, _) = one?;
    let (n, _) = other?;
    Some((m, n))
}

#[tactic(auto, unfolding(number::specs::Compare::turned_back))]
fn turn_back(d: Number, s: Number, way: Refined) -> Refined
    ensures { result ≡ defined.turned_back d s way }
{
    let (u, v) = way?;
    first_of_each(equate(d, turn(u)), equate(s, turn(v)))
}

#[tactic(auto, unfolding(number::specs::Compare::signed_ordered))]
fn order_signed(gap: u64, d: Number, s: Number) -> Refined
    ensures { result ≡ defined.signed_ordered gap d s }
{
    turn_back(d, s, order(gap, turn(d), turn(s)))
}

#[tactic(auto, unfolding(number::specs::Compare::signed_above))]
fn order_signed_above(gap: u64, d: Number, s: Number) -> Refined
    ensures { result ≡ defined.signed_above gap d s }
{
    exchange(order_signed(gap, s, d))
}

// What is left of two Numbers on the way of a comparison that is taken, or that is not.
#[tactic(auto, unfolding(number::specs::Compare::refined, number::specs::Compare::taken, number::specs::Compare::not_taken))]
pub fn refine(c: Comparison, way: bool, d: Number, s: Number) -> Refined
    ensures { result ≡ defined.refined c way d s }
{
    match (c, way) {
        (Comparison::Eq, true) | (Comparison::Ne, false) => equate(d, s),
        (Comparison::Ne, true) | (Comparison::Eq, false) => separate(d, s),
        (Comparison::Set, true) => overlap(d, s),
        (Comparison::Set, false) => disjoin(d, s),
        (Comparison::Lt, true) | (Comparison::Ge, false) => order(1, d, s),
        (Comparison::Le, true) | (Comparison::Gt, false) => order(0, d, s),
        (Comparison::Gt, true) | (Comparison::Le, false) => order_above(1, d, s),
        (Comparison::Ge, true) | (Comparison::Lt, false) => order_above(0, d, s),
        (Comparison::Slt, true) | (Comparison::Sge, false) => order_signed(1, d, s),
        (Comparison::Sle, true) | (Comparison::Sgt, false) => order_signed(0, d, s),
        (Comparison::Sgt, true) | (Comparison::Sle, false) => order_signed_above(1, d, s),
        (Comparison::Sge, true) | (Comparison::Slt, false) => order_signed_above(0, d, s),
    }
}
