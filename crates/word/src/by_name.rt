// An operation or a comparison of words, told by its name.
ghost use Rattle.std.specs.Prelude.{◌≡◌};
ghost use Rattle.word.specs.Word as defined;

use crate::arithmetic::{add, and, arsh, div, lsh, modulo, mov, mul, neg, or, rsh, sub, xor};
use crate::order::{eq, ge, gt, le, lt, ne, set, sge, sgt, sle, slt};
use crate::width::Width;
use crate::{Comparison, Operation};

pub fn alu<W: Width>(op: Operation, d: u64, s: u64) -> u64
    ensures { result ≡ defined.alu W.BITS op d s }
{
    match op {
        Operation::Add => add::<W>(d, s),
        Operation::Sub => sub::<W>(d, s),
        Operation::Mul => mul::<W>(d, s),
        Operation::Div => div::<W>(d, s),
        Operation::Or => or::<W>(d, s),
        Operation::And => and::<W>(d, s),
        Operation::Lsh => lsh::<W>(d, s),
        Operation::Rsh => rsh::<W>(d, s),
        Operation::Neg => neg::<W>(d),
        Operation::Mod => modulo::<W>(d, s),
        Operation::Xor => xor::<W>(d, s),
        Operation::Mov => mov::<W>(s),
        Operation::Arsh => arsh::<W>(d, s),
    }
}

pub fn compare<W: Width>(c: Comparison, d: u64, s: u64) -> bool
    ensures { result ≡ defined.compare W.BITS c d s }
{
    match c {
        Comparison::Eq => eq::<W>(d, s),
        Comparison::Gt => gt::<W>(d, s),
        Comparison::Ge => ge::<W>(d, s),
        Comparison::Set => set::<W>(d, s),
        Comparison::Ne => ne::<W>(d, s),
        Comparison::Sgt => sgt::<W>(d, s),
        Comparison::Sge => sge::<W>(d, s),
        Comparison::Lt => lt::<W>(d, s),
        Comparison::Le => le::<W>(d, s),
        Comparison::Slt => slt::<W>(d, s),
        Comparison::Sle => sle::<W>(d, s),
    }
}
