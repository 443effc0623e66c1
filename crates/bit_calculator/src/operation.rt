// An operation of the machine on pairs, at 64 bits (class 7) and at 32 (class 4).
#![tactic(auto, unfolding(known_bits::specs::Formula::formula, known_bits::specs::Shift::operation))]

ghost use Rattle.std.specs.Prelude.{◌≡◌};
ghost use Rattle.known_bits.specs.Computed.{Computed};
ghost use Rattle.known_bits.specs.Formula.{formula, calculated};

use crate::bitwise::{and, or, xor};
use crate::paths::cut;
use crate::products::{div, modulo, mul};
use crate::shifts::shift;
use crate::sums::{add, neg, sub};
use known_bits::{Bits, Shift};
use word::Operation;
use word::width::Width;

// For operands that are cut: the quotient and the rest of two numbers of 32 bits are those at 64 bits.
fn formula<W: Width>(op: Operation, a: Bits, b: Bits) -> Bits
    ensures { result ≡ formula W.BITS op a b }
{
    match op {
        Operation::Add => add::<W>(a, b),
        Operation::Sub => sub::<W>(a, b),
        Operation::Mul => mul(a, b, W::cut(u64::MAX)),
        Operation::Div => div(a, b),
        Operation::Or => or::<W>(a, b),
        Operation::And => and::<W>(a, b),
        Operation::Lsh => shift::<W>(Shift::Left, a, b),
        Operation::Rsh => shift::<W>(Shift::Right, a, b),
        Operation::Neg => neg::<W>(a),
        Operation::Mod => modulo(a, b),
        Operation::Xor => xor::<W>(a, b),
        Operation::Mov => b,
        Operation::Arsh => shift::<W>(Shift::Signed, a, b),
    }
}

pub fn alu<W: Width>(op: Operation, a: Bits, b: Bits) -> Bits
    ensures value { result ≡ calculated W.BITS op a b }
    ensures computed { Computed W.BITS op a b result }
{
    formula::<W>(op, cut::<W>(a), cut::<W>(b))
}
