// Words of 64 and 32 bits: the operations and the comparisons that the machine has and the analysis speaks of.
// Each function gives what `specs/Word.antt` defines, at any width and on any two words.
#![tactic(auto)]

pub mod arithmetic;
pub mod by_name;
pub mod order;
pub mod sign;
pub mod width;

#[derive(Clone, Copy)]
pub enum Operation {
    Add,
    Sub,
    Mul,
    Div,
    Or,
    And,
    Lsh,
    Rsh,
    Neg,
    Mod,
    Xor,
    Mov,
    Arsh,
}

#[derive(Clone, Copy)]
pub enum Comparison {
    Eq,
    Gt,
    Ge,
    Set,
    Ne,
    Sgt,
    Sge,
    Lt,
    Le,
    Slt,
    Sle,
}
