// Bytes read from hexadecimal text.
ghost use Rattle.std.specs.Prelude.{length};
ghost use Rattle.text.specs.Hex.{Spelled, paired, spelled};

use crate::digit::value_of;

// The bytes that pairs of digits spell go to the start of `out`; the answer is how many they are.
#[tactic(auto, using(crate::proofs::Pairing::reading_start, crate::proofs::Pairing::reading_first, crate::proofs::Pairing::reading_second, crate::proofs::Pairing::paired_empty, crate::proofs::Pairing::paired_odd, crate::proofs::Pairing::paired_long))]
pub fn read_pairs(s: &[u8], out: &mut [u8]) -> Option<usize>
    ensures { Spelled s.now out.new (length out.old) (paired s.now (length out.old)) result }
{
    let n = s.len() / 2;
    if n == 0 || s.len() != n * 2 || out.len() < n {
        return None;
    }
    for i in 0..n {
        let high = value_of(s[i * 2])?;
        let low = value_of(s[i * 2 + 1])?;
        out[i] = (high * 16 + low) as u8;
    }
    Some(n)
}

// The bytes that a word spells go to the start of `out`: pairs of digits, or `-` for no byte.
#[tactic(auto, using(crate::proofs::Words::dash_pointwise, crate::proofs::Pairing::no_byte_of_dash), unfolding(crate::specs::Hex::spelled))]
pub fn read_hex(s: &[u8], out: &mut [u8]) -> Option<usize>
    ensures { Spelled s.now out.new (length out.old) (spelled s.now (length out.old)) result }
{
    if s == b"-".as_slice() {
        Some(0)
    } else {
        read_pairs(s, out)
    }
}
