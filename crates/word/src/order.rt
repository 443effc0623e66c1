// The comparisons of words of any width; the S forms take the highest bit as the sign.
// Each contract is a line of `compare`.
#![tactic(auto, unfolding(crate::specs::Word::compare))]

ghost use Rattle.std.specs.Prelude.{◌≡◌};
ghost use Rattle.word.specs.Word.{compare};

use crate::Comparison;
use crate::sign::moved;
use crate::width::Width;

pub fn eq<W: Width>(d: u64, s: u64) -> bool
    ensures { result ≡ compare W.BITS Comparison.Eq d s }
{
    W::cut(d) == W::cut(s)
}

pub fn gt<W: Width>(d: u64, s: u64) -> bool
    ensures { result ≡ compare W.BITS Comparison.Gt d s }
{
    W::cut(d) > W::cut(s)
}

pub fn ge<W: Width>(d: u64, s: u64) -> bool
    ensures { result ≡ compare W.BITS Comparison.Ge d s }
{
    W::cut(d) >= W::cut(s)
}

pub fn set<W: Width>(d: u64, s: u64) -> bool
    ensures { result ≡ compare W.BITS Comparison.Set d s }
{
    W::cut(d) & W::cut(s) != 0
}

pub fn ne<W: Width>(d: u64, s: u64) -> bool
    ensures { result ≡ compare W.BITS Comparison.Ne d s }
{
    W::cut(d) != W::cut(s)
}

pub fn sgt<W: Width>(d: u64, s: u64) -> bool
    ensures { result ≡ compare W.BITS Comparison.Sgt d s }
{
    moved::<W>(d) > moved::<W>(s)
}

pub fn sge<W: Width>(d: u64, s: u64) -> bool
    ensures { result ≡ compare W.BITS Comparison.Sge d s }
{
    moved::<W>(d) >= moved::<W>(s)
}

pub fn lt<W: Width>(d: u64, s: u64) -> bool
    ensures { result ≡ compare W.BITS Comparison.Lt d s }
{
    W::cut(d) < W::cut(s)
}

pub fn le<W: Width>(d: u64, s: u64) -> bool
    ensures { result ≡ compare W.BITS Comparison.Le d s }
{
    W::cut(d) <= W::cut(s)
}

pub fn slt<W: Width>(d: u64, s: u64) -> bool
    ensures { result ≡ compare W.BITS Comparison.Slt d s }
{
    moved::<W>(d) < moved::<W>(s)
}

pub fn sle<W: Width>(d: u64, s: u64) -> bool
    ensures { result ≡ compare W.BITS Comparison.Sle d s }
{
    moved::<W>(d) <= moved::<W>(s)
}
