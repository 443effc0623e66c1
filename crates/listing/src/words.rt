// The words of the instructions' syntax: operations, comparisons, the sizes of loads and stores.
use machine::instruction::Size;
use word::{Comparison, Operation};

pub fn operation_word(operation: Operation) -> &'static [u8] {
    match operation {
        Operation::Add => b" += ",
        Operation::Sub => b" -= ",
        Operation::Mul => b" *= ",
        Operation::Div => b" /= ",
        Operation::Or => b" |= ",
        Operation::And => b" &= ",
        Operation::Lsh => b" <<= ",
        Operation::Rsh => b" >>= ",
        Operation::Neg => b" = -",
        Operation::Mod => b" %= ",
        Operation::Xor => b" ^= ",
        Operation::Mov => b" = ",
        Operation::Arsh => b" s>>= ",
    }
}

pub fn comparison_word(comparison: Comparison) -> &'static [u8] {
    match comparison {
        Comparison::Eq => b" == ",
        Comparison::Gt => b" > ",
        Comparison::Ge => b" >= ",
        Comparison::Set => b" & ",
        Comparison::Ne => b" != ",
        Comparison::Sgt => b" s> ",
        Comparison::Sge => b" s>= ",
        Comparison::Lt => b" < ",
        Comparison::Le => b" <= ",
        Comparison::Slt => b" s< ",
        Comparison::Sle => b" s<= ",
    }
}

pub fn size_word(size: Size) -> &'static [u8] {
    match size {
        Size::One => b"u8",
        Size::Two => b"u16",
        Size::Four => b"u32",
        Size::Eight => b"u64",
    }
}
