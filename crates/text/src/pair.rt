// Two numbers read from one word, with a stroke between them.
ghost use Rattle.std.specs.Prelude.{◌≡◌};
ghost use Rattle.text.specs.Pair.{pair};

use crate::number::read_hexadecimal;
use crate::scan::place_of;

// The two numbers below 2^64 that hexadecimal digits spell before and after the first `/`.
#[tactic(auto, using(crate::proofs::Pairs::no_stroke, crate::proofs::Pairs::no_first, crate::proofs::Pairs::no_second, crate::proofs::Pairs::both_read))]
pub fn read_pair(s: &[u8]) -> Option<(u64, u64)>
    ensures { result ≡ pair s.now }
{
    let stroke = place_of(s, b'/')?;
    let first = read_hexadecimal(&s[..stroke])?;
    let second = read_hexadecimal(&s[stroke + 1..])?;
    Some((first, second))
}
