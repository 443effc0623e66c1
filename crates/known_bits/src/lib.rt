// Known bits: a pair value/mask stands for the numbers that agree with value outside mask. The types and how a pair is made of a number or a
// mask; what is done with them is defined in specs/, proved of the definitions in proofs/, and computed by the crate `bit_calculator`.
#![tactic(auto, unfolding(crate::specs::Formula::among))]

ghost use Rattle.std.specs.Prelude.{◌≡◌};
ghost use Rattle.known_bits.specs.Formula.{among};
ghost use Rattle.known_bits.specs.Pair.{exactly, top};

#[derive(Clone, Copy)]
pub struct Bits {
    pub value: u64,
    pub mask: u64,
}

impl Bits {
    // The number x, and no other.
    pub fn exactly(x: u64) -> Bits
        ensures { result ≡ exactly x }
    {
        Bits { value: x, mask: 0 }
    }

    // The numbers whose bits are among the mask's.
    pub fn among(mask: u64) -> Bits
        ensures { result ≡ among mask }
    {
        Bits { value: 0, mask }
    }

    // The greatest of its numbers; the least is its value.
    pub fn top(self) -> u64
        ensures { result ≡ top self }
    {
        self.value | self.mask
    }
}

#[derive(Clone, Copy)]
pub enum Shift {
    Left,
    Right,
    Signed,
}
