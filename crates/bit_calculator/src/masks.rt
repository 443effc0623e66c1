// Masks of the bits that a result may have: up to a highest, from a lowest.
#![tactic(auto, unfolding(known_bits::specs::Formula::up_to, known_bits::specs::Formula::from_bit))]

ghost use Rattle.std.specs.Prelude.{◌≡◌};
ghost use Rattle.std.specs.Int.Count.{count_trailing_zeros};
ghost use Rattle.known_bits.specs.Formula.{up_to, from_bit};

// All bits up to the highest one of t.
pub fn up_to(t: u64) -> u64
    ensures { result ≡ up_to t }
{
    if t == 0 {
        0
    } else {
        u64::MAX >> t.leading_zeros()
    }
}

// All bits from n on.
pub fn from_bit(n: u64) -> u64
    ensures { result ≡ from_bit n }
{
    if n < 64 { u64::MAX << n } else { 0 }
}

// How many low bits are 0 in all numbers whose bits are among t's.
pub fn trailing(t: u64) -> u64
    ensures { result ≡ count_trailing_zeros 64 t }
{
    u64::from(t.trailing_zeros())
}
