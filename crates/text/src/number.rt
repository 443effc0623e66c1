// Numbers read from text.
ghost use Rattle.std.specs.Prelude.{◌≡◌, ◌≤◌, ◌<◌, SomeIff};
ghost use Rattle.text.specs.Number.{number, numeral};
ghost use Rattle.text.specs.Digit.{digit};

use crate::digit::value_of;

// The value of a digit of the base.
fn digit_of(base: u64, b: u8) -> Option<u64>
    requires { base ≤ 16 }
    ensures { SomeIff result (digit b < base) (digit b) }
{
    value_of(b).filter(|d| *d < base)
}

// The number below 2^64 that digits of the base spell.
#[tactic(auto, using(crate::proofs::Numbers::number_start, crate::proofs::Numbers::number_bad, crate::proofs::Numbers::number_over, crate::proofs::Numbers::number_more, crate::proofs::Numbers::number_end, crate::proofs::Numbers::number_none))]
fn read_in(base: u64, s: &[u8]) -> Option<u64>
    requires { base ≤ 16 }
    ensures { result ≡ number base s.now }
{
    if s.is_empty() {
        return None;
    }
    let mut n: u64 = 0;
    for b in s {
        let d = digit_of(base, *b)?;
        n = n.checked_mul(base)?.checked_add(d)?;
    }
    Some(n)
}

// The number below 2^64 that decimal digits spell.
pub fn read_decimal(s: &[u8]) -> Option<u64>
    ensures { result ≡ number 10 s.now }
{
    read_in(10, s)
}

// The number below 2^64 that hexadecimal digits spell.
pub fn read_hexadecimal(s: &[u8]) -> Option<u64>
    ensures { result ≡ number 16 s.now }
{
    read_in(16, s)
}

// A decimal number, or a hexadecimal one after 0x.
#[tactic(auto, using(crate::proofs::Words::marked_pointwise), unfolding(crate::specs::Number::numeral))]
pub fn read_number(s: &[u8]) -> Option<u64>
    ensures { result ≡ numeral s.now }
{
    match s.strip_prefix(b"0x") {
        Some(digits) => read_hexadecimal(digits),
        None => read_decimal(s),
    }
}
