// The operations, at any width: both operands are cut first, and the bits above the width of the result are 0.
// Each contract is a line of `alu`.
#![tactic(auto, unfolding(crate::specs::Word::alu, crate::specs::Word::cut))]

ghost use Rattle.std.specs.Prelude.{◌≡◌, ℕ, ◌<◌};
ghost use Rattle.word.specs.Word.{alu, shift_signed};

use crate::Operation;
use crate::sign::extend;
use crate::width::Width;

pub fn add<W: Width>(d: u64, s: u64) -> u64
    ensures { result ≡ alu W.BITS Operation.Add d s }
{
    W::cut(W::cut(d).wrapping_add(W::cut(s)))
}

pub fn sub<W: Width>(d: u64, s: u64) -> u64
    ensures { result ≡ alu W.BITS Operation.Sub d s }
{
    W::cut(W::cut(d).wrapping_sub(W::cut(s)))
}

pub fn mul<W: Width>(d: u64, s: u64) -> u64
    ensures { result ≡ alu W.BITS Operation.Mul d s }
{
    W::cut(W::cut(d).wrapping_mul(W::cut(s)))
}

pub fn div<W: Width>(d: u64, s: u64) -> u64
    ensures { result ≡ alu W.BITS Operation.Div d s }
{
    let k = W::cut(s);
    if k == 0 { 0 } else { W::cut(d) / k }
}

pub fn or<W: Width>(d: u64, s: u64) -> u64
    ensures { result ≡ alu W.BITS Operation.Or d s }
{
    W::cut(d) | W::cut(s)
}

pub fn and<W: Width>(d: u64, s: u64) -> u64
    ensures { result ≡ alu W.BITS Operation.And d s }
{
    W::cut(d) & W::cut(s)
}

pub fn lsh<W: Width>(d: u64, s: u64) -> u64
    ensures { result ≡ alu W.BITS Operation.Lsh d s }
{
    W::cut(W::cut(d) << (s % W::BITS))
}

pub fn rsh<W: Width>(d: u64, s: u64) -> u64
    ensures { result ≡ alu W.BITS Operation.Rsh d s }
{
    W::cut(d) >> (s % W::BITS)
}

pub fn neg<W: Width>(d: u64) -> u64
    ensures { (s : ℕ) → result ≡ alu W.BITS Operation.Neg d s }
{
    W::cut(W::cut(d).wrapping_neg())
}

pub fn modulo<W: Width>(d: u64, s: u64) -> u64
    ensures { result ≡ alu W.BITS Operation.Mod d s }
{
    let x = W::cut(d);
    let k = W::cut(s);
    if k == 0 { x } else { x % k }
}

pub fn xor<W: Width>(d: u64, s: u64) -> u64
    ensures { result ≡ alu W.BITS Operation.Xor d s }
{
    W::cut(d) ^ W::cut(s)
}

pub fn mov<W: Width>(s: u64) -> u64
    ensures { (d : ℕ) → result ≡ alu W.BITS Operation.Mov d s }
{
    W::cut(s)
}

// A word shifted by n places; its sign enters.
#[tactic(auto, unfolding(crate::specs::Word::shift_signed))]
fn shift_signed(d: u64, n: u64) -> u64
    requires { n < 64 }
    ensures { result ≡ shift_signed 64 d n }
{
    if d < 9223372036854775808 {
        d >> n
    } else {
        !(!d >> n)
    }
}

// The operand is extended with its sign and shifted as a word: the compiler makes of it one extension and one shift.
pub fn arsh<W: Width>(d: u64, s: u64) -> u64
    ensures { result ≡ alu W.BITS Operation.Arsh d s }
{
    W::cut(shift_signed(extend::<W>(d), s % W::BITS))
}
