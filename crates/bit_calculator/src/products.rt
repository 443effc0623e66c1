// Products, quotients and rests of pairs: exact ones of numbers that are known, and else what is known of all results.
ghost use Rattle.std.specs.Prelude.{◌≡◌, ℕ, ◌-◌, ◌^◌, ◌≤◌, ◌<◌, MatchOption};
ghost use Rattle.std.specs.Int.Bits.{bit_or};
ghost use Rattle.known_bits.specs.Formula.{low, product_mask, with_digit, shift_and_add, product, power, highest_quotient, quotient, highest_rest, rest};

use crate::masks::{from_bit, trailing, up_to};
use crate::paths::join;
use crate::sums::add;
use known_bits::Bits;
use word::arithmetic;
use word::width::W64;

// The low zeros of both factors are the product's, and no product is more than that of the greatest factors, if that fits.
#[tactic(auto, unfolding(known_bits::specs::Formula::product_mask, known_bits::specs::Formula::highest_product))]
fn product_mask(t: u64, u: u64) -> u64
    ensures { result ≡ product_mask t u }
{
    from_bit(trailing(t) + trailing(u)) & up_to(t.saturating_mul(u))
}

// r and digit k of a: b is added k places up, or not, or may be.
#[tactic(auto, unfolding(known_bits::specs::Formula::placed))]
fn with_digit(a: Bits, b: Bits, k: u64, r: Bits) -> Bits
    requires { k < 64 }
    ensures { result ≡ with_digit 64 a b k r }
{
    if (a.top() >> k) % 2 == 0 {
        return r;
    }
    let placed = Bits {
        value: b.value << k,
        mask: b.mask << k,
    };
    let more = add::<W64>(r, placed);
    if (a.mask >> k) % 2 == 0 {
        return more;
    }
    join(r, more)
}

// Shift and add, as far as the low bits `all` go: until no digit of a is left, or all is unknown that the rest can reach.
fn shift_and_add(a: Bits, b: Bits, all: u64) -> Bits
    ensures { (w : ℕ) → w ≤ 64 → all ≡ 2 ^ w - 1 → low w result ≡ low w (shift_and_add 64 a b) }
{
    let digits = a.top();
    let reach = from_bit(trailing(b.top()));
    let mut r = Bits::exactly(0);
    for k in 0..64 {
        if digits >> k == 0 {
            return r;
        }
        if ((reach << k) & all) | r.mask == r.mask {
            return r;
        }
        r = with_digit(a, b, k, r);
    }
    r
}

// The low bits `all` of a product: what the mask and the digits of either factor know.
fn by_digits(a: Bits, b: Bits, all: u64) -> Bits
    ensures { (w : ℕ) → w ≤ 64 → all ≡ 2 ^ w - 1 → ¬ (bit_or a.mask b.mask ≡ 0) → result ≡ low w (product a b) }
{
    let p = shift_and_add(a, b, all);
    let q = shift_and_add(b, a, all);
    let mask = product_mask(a.top(), b.top());
    Bits {
        value: (p.value | q.value) & all,
        mask: (mask & (p.mask & q.mask)) & all,
    }
}

// The low bits `all` of a product. Of factors of which nothing but a length is known the mask knows all there is to know.
pub fn mul(a: Bits, b: Bits, all: u64) -> Bits
    ensures { (w : ℕ) → w ≤ 64 → all ≡ 2 ^ w - 1 → result ≡ low w (product a b) }
{
    if a.mask | b.mask == 0 {
        return Bits::exactly(arithmetic::mul::<W64>(a.value, b.value) & all);
    }
    if a.value | b.value == 0 && up_to(a.mask) == a.mask && up_to(b.mask) == b.mask {
        return Bits::among(product_mask(a.top(), b.top()) & all);
    }
    by_digits(a, b, all)
}

// The n of a pair that is known to be 2 ^ n.
#[tactic(auto, unfolding(known_bits::specs::Formula::power))]
fn power(b: Bits) -> Option<u64>
    ensures { MatchOption result (power b ≡ 64) (λ n. (n < 64) × (power b ≡ n)) }
{
    let n = trailing(b.value) % 64;
    if b.mask == 0 && b.value == 1 << n {
        Some(n)
    } else {
        None
    }
}

// No quotient is more than that of the greatest dividend by the least divisor.
#[tactic(auto, unfolding(known_bits::specs::Formula::highest_quotient))]
fn highest_quotient(t: u64, v: u64) -> u64
    ensures { result ≡ highest_quotient t v }
{
    if v == 0 { t } else { t / v }
}

#[tactic(auto, unfolding(known_bits::specs::Formula::quotient, known_bits::specs::Formula::known))]
pub fn div(a: Bits, b: Bits) -> Bits
    ensures { result ≡ quotient a b }
{
    if a.mask | b.mask == 0 {
        return Bits::exactly(arithmetic::div::<W64>(a.value, b.value));
    }
    match power(b) {
        Some(n) => Bits {
            value: a.value >> n,
            mask: a.mask >> n,
        },
        None => Bits::among(up_to(highest_quotient(a.top(), b.value))),
    }
}

// A rest is at most the dividend, and less than a divisor that can't be 0.
#[tactic(auto, unfolding(known_bits::specs::Formula::highest_rest))]
fn highest_rest(t: u64, v: u64, u: u64) -> u64
    ensures { result ≡ highest_rest t v u }
{
    if v == 0 || t < u {
        t
    } else {
        u.saturating_sub(1)
    }
}

#[tactic(auto, unfolding(known_bits::specs::Formula::rest, known_bits::specs::Formula::known))]
pub fn modulo(a: Bits, b: Bits) -> Bits
    ensures { result ≡ rest a b }
{
    if a.mask | b.mask == 0 {
        return Bits::exactly(arithmetic::modulo::<W64>(a.value, b.value));
    }
    match power(b) {
        Some(n) => Bits {
            value: a.value % (1 << n),
            mask: a.mask % (1 << n),
        },
        None => Bits::among(up_to(highest_rest(a.top(), b.value, b.top()))),
    }
}
