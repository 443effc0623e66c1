// Which way a jump goes, and what either way tells of its operands, by the width that is compared.
#![tactic(auto, unfolding(machine::specs::Machine::bits, analysis::specs::Effects::told))]

ghost use Rattle.std.specs.Prelude.{◌≡◌};
ghost use Rattle.word.specs.Word.{compare};
ghost use Rattle.machine.specs.Machine.{bits};
ghost use Rattle.analysis.specs.Effects.{told};

use calculator::{compare, halves};
use machine::instruction::Width;
use number::{Number, Refined};
use word::width::{W32, W64};
use word::{Comparison, by_name};

pub fn is_taken(w: Width, c: Comparison, x: u64, y: u64) -> bool
    ensures { result ≡ compare (bits w) c x y }
{
    match w {
        Width::Long => by_name::compare::<W64>(c, x, y),
        Width::Short => by_name::compare::<W32>(c, x, y),
    }
}

pub fn told(w: Width, c: Comparison, taken: bool, d: Number, s: Number) -> Refined
    ensures { result ≡ told w c taken d s }
{
    match w {
        Width::Long => compare::refine(c, taken, d, s),
        Width::Short => halves::refine(c, taken, d, s),
    }
}
