// The widths of words: 64 bits (classes 7 and 5), 32 bits (classes 4 and 6), and the 16 bits of an instruction's offset.
#![tactic(auto, unfolding(crate::specs::Word::cut))]

ghost use Rattle.std.specs.Prelude.{◌≡◌, ℕ, ◌⊎◌, refl};
ghost use Rattle.std.proofs.Common.{inl, inr};
ghost use Rattle.word.specs.Word.{cut};

pub trait Width {
    ghost BITS: { ℕ };

    const BITS: u64;

    // The low bits of x.
    fn cut(x: u64) -> u64
        ensures { result ≡ cut BITS x };

    ghost one_of_three: { (BITS ≡ 64) ⊎ ((BITS ≡ 32) ⊎ (BITS ≡ 16)) };
}

pub struct W64;

pub struct W32;

pub struct W16;

impl Width for W64 {
    ghost BITS = { 64 };

    const BITS: u64 = 64;

    fn cut(x: u64) -> u64 {
        x
    }

    ghost one_of_three = { inl refl };
}

impl Width for W32 {
    ghost BITS = { 32 };

    const BITS: u64 = 32;

    fn cut(x: u64) -> u64 {
        x % 4294967296
    }

    ghost one_of_three = { inr (inl refl) };
}

impl Width for W16 {
    ghost BITS = { 16 };

    const BITS: u64 = 16;

    fn cut(x: u64) -> u64 {
        x % 65536
    }

    ghost one_of_three = { inr (inr refl) };
}
