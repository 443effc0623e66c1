// What a comparison tells of a pair on a way out: a sharper pair, or that no number of it goes that way.
ghost use Rattle.std.specs.Prelude.{◌≡◌};
ghost use Rattle.known_bits.specs.Formula.{cleared, met};
ghost use Rattle.known_bits.specs.KnownBits.{Well, Both, Apart};
ghost use Rattle.known_bits.specs.Learn.{Learns};

use known_bits::Bits;

// JSET on the way that is not taken: the bits of s are 0.
pub fn jset_not_taken(a: Bits, s: u64) -> Option<Bits>
    ensures value { result ≡ cleared a s }
    ensures learns { Well 64 a → Learns (Apart a s) result }
{
    if a.value & s != 0 {
        return None;
    }
    Some(Bits {
        value: a.value,
        mask: (a.mask | s) ^ s,
    })
}

// Two pairs for one number contradict each other where both know a bit and differ in it.
pub fn meet(a: Bits, b: Bits) -> Option<Bits>
    ensures value { result ≡ met a b }
    ensures learns { Well 64 a → Well 64 b → Learns (Both a b) result }
{
    let unknown = a.mask | b.mask;
    if (a.value | unknown) != (b.value | unknown) {
        return None;
    }
    Some(Bits {
        value: a.value | b.value,
        mask: a.mask & b.mask,
    })
}
