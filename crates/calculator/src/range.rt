// The range of each operation for two ranges. Whether a result wraps is tested by what does not.
#![tactic(auto, unfolding(number::specs::Sharpen::everything))]

ghost use Rattle.std.specs.Prelude.{◌≡◌, ◌*◌, ◌^◌, ltb};
ghost use Rattle.number.specs.Ranges as defined;
ghost use Rattle.number.specs.Sharpen as sharpen;

use bit_calculator::masks::up_to;
use number::Range;
use word::width::{W64, Width};
use word::{Operation, by_name};

// All numbers of a width.
pub fn everything<W: Width>() -> Range
    ensures { result ≡ sharpen.everything W.BITS }
{
    Range {
        lo: 0,
        hi: W::cut(u64::MAX),
    }
}

// The results of an operation that grows with both operands. Each call knows its operation: inlined, nothing is left of the choice.
#[inline(always)]
#[tactic(auto, unfolding(number::specs::Ranges::straight))]
fn straight<W: Width>(op: Operation, a: Range, b: Range) -> Range
    ensures { result ≡ defined.straight W.BITS op a b }
{
    Range {
        lo: by_name::alu::<W>(op, a.lo, b.lo),
        hi: by_name::alu::<W>(op, a.hi, b.hi),
    }
}

// The results of an operation that grows with the first operand and falls with the second.
#[inline(always)]
#[tactic(auto, unfolding(number::specs::Ranges::crossed))]
fn crossed<W: Width>(op: Operation, a: Range, b: Range) -> Range
    ensures { result ≡ defined.crossed W.BITS op a b }
{
    Range {
        lo: by_name::alu::<W>(op, a.lo, b.hi),
        hi: by_name::alu::<W>(op, a.hi, b.lo),
    }
}

// No sum wraps, or every sum does.
#[tactic(auto, unfolding(number::specs::Ranges::sum_range))]
fn sum(a: Range, b: Range) -> Range
    ensures { result ≡ defined.sum_range a b }
{
    if a.hi.checked_add(b.hi).is_some() || a.lo.checked_add(b.lo).is_none() {
        straight::<W64>(Operation::Add, a, b)
    } else {
        everything::<W64>()
    }
}

// No difference wraps, or every difference does.
#[tactic(auto, unfolding(number::specs::Ranges::difference_range))]
fn difference(a: Range, b: Range) -> Range
    ensures { result ≡ defined.difference_range a b }
{
    if b.hi <= a.lo || a.hi < b.lo {
        crossed::<W64>(Operation::Sub, a, b)
    } else {
        everything::<W64>()
    }
}

#[tactic(auto, unfolding(number::specs::Ranges::product_range))]
fn product(a: Range, b: Range) -> Range
    ensures { result ≡ defined.product_range a b }
{
    if a.hi.checked_mul(b.hi).is_some() {
        straight::<W64>(Operation::Mul, a, b)
    } else {
        everything::<W64>()
    }
}

// The quotient by 0 is 0.
#[tactic(auto, unfolding(number::specs::Ranges::quotient_range))]
fn quotient(a: Range, b: Range) -> Range
    ensures { result ≡ defined.quotient_range a b }
{
    if b.lo == 0 {
        let hi = if b.hi == 0 { 0 } else { a.hi };
        Range { lo: 0, hi }
    } else {
        crossed::<W64>(Operation::Div, a, b)
    }
}

// Whether all of a have one quotient by the one number of b; by 0 it is 0.
fn same_quotient(a: Range, b: Range) -> bool
    ensures { result ≡ defined.same_quotient a b }
{
    if b.lo != b.hi {
        return false;
    }
    let quotients = straight::<W64>(Operation::Div, a, b);
    quotients.lo == quotients.hi
}

// The rest by 0 is the dividend, and so is the rest by a number above it.
#[tactic(auto, unfolding(number::specs::Ranges::rest_range))]
fn rest(a: Range, b: Range) -> Range
    ensures { result ≡ defined.rest_range a b }
{
    if b.hi == 0 {
        a
    } else if b.lo == 0 {
        Range { lo: 0, hi: a.hi }
    } else if a.hi < b.lo {
        a
    } else if same_quotient(a, b) {
        straight::<W64>(Operation::Mod, a, b)
    } else {
        Range {
            lo: 0,
            hi: a.hi.min(b.hi - 1),
        }
    }
}

// Whether x, shifted left by n, is a word; only 0 is where the count is no count of a word.
fn shift_fits(x: u64, n: u64) -> bool
    ensures { result ≡ ltb (x * 2 ^ n) (2 ^ 64) }
{
    if n < 64 { x <= u64::MAX >> n } else { x == 0 }
}

#[tactic(auto, unfolding(number::specs::Ranges::left_range))]
fn left(a: Range, c: Range) -> Range
    ensures { result ≡ defined.left_range a c }
{
    if shift_fits(a.hi, c.hi) {
        straight::<W64>(Operation::Lsh, a, c)
    } else {
        everything::<W64>()
    }
}

// A number that is not negative falls with the count, a negative one grows.
#[tactic(auto, unfolding(number::specs::Ranges::signed_right_range))]
fn signed_right<W: Width>(a: Range, c: Range) -> Range
    ensures { result ≡ defined.signed_right_range W.BITS a c }
{
    let highest = W::cut(u64::MAX) / 2;
    if a.hi <= highest {
        crossed::<W>(Operation::Arsh, a, c)
    } else if highest < a.lo {
        straight::<W>(Operation::Arsh, a, c)
    } else {
        everything::<W>()
    }
}

// The width matters to a signed shift only.
#[tactic(auto, unfolding(number::specs::Ranges::ranged, number::specs::Ranges::longest, number::specs::Sharpen::just))]
pub fn ranged<W: Width>(op: Operation, a: Range, b: Range) -> Range
    ensures { result ≡ defined.ranged W.BITS op a b }
{
    match op {
        Operation::Add => sum(a, b),
        Operation::Sub => difference(a, b),
        Operation::Mul => product(a, b),
        Operation::Div => quotient(a, b),
        Operation::Or => Range {
            lo: a.lo.max(b.lo),
            hi: up_to(a.hi | b.hi),
        },
        Operation::And => Range {
            lo: 0,
            hi: a.hi.min(b.hi),
        },
        Operation::Lsh => left(a, b),
        Operation::Rsh => crossed::<W64>(Operation::Rsh, a, b),
        Operation::Neg => difference(Range { lo: 0, hi: 0 }, a),
        Operation::Mod => rest(a, b),
        Operation::Xor => Range {
            lo: 0,
            hi: up_to(a.hi | b.hi),
        },
        Operation::Mov => b,
        Operation::Arsh => signed_right::<W>(a, b),
    }
}
