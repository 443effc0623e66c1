// Values as scratch memory holds them, and what covers two where paths meet.
ghost use Rattle.std.specs.Prelude.{◌≡◌};
ghost use Rattle.analysis.specs.Values.{joined_value};
ghost use Rattle.waiting.specs.State as defined;
ghost use Rattle.waiting.specs.State.{held_in};

use analysis::Value;
use calculator::sharpen::{exactly, join};
use number::Number;

// What a value is: unset on some path, of kinds that differ, a number, an address into the record or one into the stack.
#[derive(Clone, Copy)]
pub enum Kind {
    Unset,
    Mixed,
    Plain,
    Record,
    Stack,
}

#[tactic(auto, unfolding(crate::specs::State::kind_of))]
impl From<u64> for Kind {
    ghost from_gives = { λ word kind. kind ≡ defined.kind_of word };

    fn from(word: u64) -> Kind {
        match word {
            0 => Kind::Unset,
            1 => Kind::Mixed,
            2 => Kind::Plain,
            3 => Kind::Record,
            _ => Kind::Stack,
        }
    }
}

#[tactic(auto, unfolding(crate::specs::State::word_of))]
impl From<Kind> for u64 {
    ghost from_gives = { λ kind word. word ≡ defined.word_of kind };

    fn from(kind: Kind) -> u64 {
        kind as u64
    }
}

#[tactic(auto, unfolding(crate::specs::State::joined_kind))]
fn joined_kind(u: Kind, v: Kind) -> Kind
    ensures { result ≡ defined.joined_kind u v }
{
    match (u, v) {
        (Kind::Unset, _) | (_, Kind::Unset) => Kind::Unset,
        (Kind::Plain, Kind::Plain) => Kind::Plain,
        (Kind::Record, Kind::Record) => Kind::Record,
        (Kind::Stack, Kind::Stack) => Kind::Stack,
        _ => Kind::Mixed,
    }
}

// A value; where nothing may be used of it, the number says nothing.
#[derive(Clone, Copy)]
pub struct Held {
    pub kind: Kind,
    pub number: Number,
}

impl Held {
    #[tactic(auto, unfolding(crate::specs::State::held_in, crate::specs::State::of_kind))]
    pub fn plain(number: Number) -> Held
        ensures { held_in result ≡ Value.Plain number }
    {
        Held {
            kind: Kind::Plain,
            number,
        }
    }

    #[tactic(auto, unfolding(crate::specs::State::unset))]
    pub fn unset() -> Held
        ensures { result ≡ defined.unset }
    {
        Held {
            kind: Kind::Unset,
            number: exactly(0),
        }
    }

    #[tactic(auto, using(crate::proofs::ByKind::kinds_are_joined), unfolding(crate::specs::State::held_in))]
    pub fn join(self, other: Held) -> Held
        ensures { held_in result ≡ joined_value (held_in self) (held_in other) }
    {
        let kind = joined_kind(self.kind, other.kind);
        match kind {
            Kind::Unset | Kind::Mixed => Held {
                kind,
                number: self.number,
            },
            _ => Held {
                kind,
                number: join(self.number, other.number),
            },
        }
    }
}
