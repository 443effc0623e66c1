// How a pair is built from a number and a mask, so that it has the form.
ghost use Rattle.std.specs.Prelude.{◌≡◌};
ghost use Rattle.known_bits.specs.Pair.{packed, spread};

use known_bits::Bits;

// s with the bits of m unknown.
pub fn pack(s: u64, m: u64) -> Bits
    ensures { result ≡ packed s m }
{
    Bits {
        value: (s | m) ^ m,
        mask: m,
    }
}

// s with the bits unknown where lo and hi differ, or where ma or mb is 1.
pub fn pack_spread(s: u64, lo: u64, hi: u64, ma: u64, mb: u64) -> Bits
    ensures { result ≡ spread s lo hi ma mb }
{
    pack(s, (hi ^ lo) | ma | mb)
}
