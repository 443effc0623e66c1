// Values and states in lent words: read, written, copied, joined.
ghost use Rattle.std.specs.Prelude.{◌≡◌, ℕ, ◌+◌, ◌*◌, ◌≤◌, ◌<◌, length, get_or};
ghost use Rattle.analysis.specs.Values.{joined_facts, joined_value, start_facts, value_of};
ghost use Rattle.waiting.specs.State.{held_in, held_at, facts_at, IsSingle, nothing_known, Wrote, Holds, PutRegister, PutBack, Stored};
ghost use Rattle.waiting.specs.Layout.{value_words, state_words};

use crate::value::{Held, Kind};
use crate::{REGISTERS, STATE_WORDS, VALUE_WORDS};
use calculator::sharpen::exactly;
use known_bits::Bits;
use number::{Number, Range};

#[tactic(auto, unfolding(crate::specs::State::held_at))]
pub fn held_at(m: &[u64], at: usize) -> Held
    requires { at + value_words ≤ length m.now }
    ensures { result ≡ held_at m.now at }
{
    Held {
        kind: Kind::from(m[at]),
        number: Number {
            bits: Bits {
                value: m[at + 1],
                mask: m[at + 2],
            },
            range: Range {
                lo: m[at + 3],
                hi: m[at + 4],
            },
        },
    }
}

// A state: the place in lent words where it starts.
#[derive(Clone, Copy)]
pub struct State<'a> {
    pub words: &'a [u64],
    pub at: usize,
    pub ghost inside: { at + state_words ≤ length words.now },
}

impl State<'_> {
    ghost use Rattle.waiting.specs.View.{facts_of};

    // The value of register r.
    pub fn register(self, r: u64) -> Held
        ensures value { held_in result ≡ value_of (facts_of self.entry) r }
        ensures words { r < 11 → result ≡ held_at self.entry.words.now (self.entry.at + value_words * r) }
    {
        if r < REGISTERS as u64 {
            held_at(self.words, self.at + VALUE_WORDS * r as usize)
        } else {
            Held::unset()
        }
    }

    // The number that register r is known to be. It is told from its words, and no Number is made of them: that makes a program that computes
    // with known numbers cheap.
    pub fn single(self, r: u64) -> Option<u64>
        ensures { IsSingle result (value_of (facts_of self.entry) r) }
    {
        if REGISTERS as u64 <= r {
            return None;
        }
        let m = self.words;
        let k = self.at + VALUE_WORDS * r as usize;
        let x = m[k + 1];
        if m[k] == Kind::Plain as u64 && m[k + 2] == 0 && m[k + 3] == x && m[k + 4] == x {
            Some(x)
        } else {
            None
        }
    }

    // The words of register d, to be put back.
    pub fn words_of_register(self, d: u64) -> [u64; VALUE_WORDS]
        ensures { d < 11 → (k : ℕ) → k < value_words → get_or result k 0 ≡ get_or self.entry.words.now (self.entry.at + value_words * d + k) 0 }
    {
        let mut words = [0; VALUE_WORDS];
        if d < REGISTERS as u64 {
            let place = self.at + VALUE_WORDS * d as usize;
            words.copy_from_slice(&self.words[place..place + VALUE_WORDS]);
        }
        words
    }
}

pub fn write_held(m: &mut [u64], at: usize, h: Held)
    requires { at + value_words ≤ length m.old }
    ensures { Wrote m.old m.new at h }
{
    let word = u64::from(h.kind);
    m[at] = word;
    m[at + 1] = h.number.bits.value;
    m[at + 2] = h.number.bits.mask;
    m[at + 3] = h.number.range.lo;
    m[at + 4] = h.number.range.hi;
}

// Register d of the state at `at` becomes h; a register that there is not becomes nothing.
// Kept: those that write take the words and the place, and no value of both, as `arrive` of `store` says.
pub fn put_register(m: &mut [u64], at: usize, d: u64, h: Held)
    requires { at + state_words ≤ length m.old }
    ensures { PutRegister m.old m.new at d h }
{
    if d < REGISTERS as u64 {
        write_held(m, at + VALUE_WORDS * d as usize, h);
    }
}

pub fn put_words_back(m: &mut [u64], at: usize, d: u64, words: [u64; VALUE_WORDS])
    requires { at + state_words ≤ length m.old }
    ensures { PutBack m.old m.new at d words }
{
    if d < REGISTERS as u64 {
        let place = at + VALUE_WORDS * d as usize;
        m[place..place + VALUE_WORDS].copy_from_slice(&words);
    }
}

// Kept: word by word, 72 executed instructions a copy; `copy_from_slice` over a split slice calls memcpy and takes 101.
pub fn copy_state(m: &mut [u64], from: usize, to: usize)
    requires { (from + state_words ≤ to) × (to + state_words ≤ length m.old) }
    ensures { Stored m.old m.new to (facts_at m.old from) }
{
    for k in 0..STATE_WORDS {
        m[to + k] = m[from + k];
    }
}

// Words that are 0 say of each register that it is unset.
fn forget(m: &mut [u64], at: usize)
    requires { at + state_words ≤ length m.old }
    ensures { Stored m.old m.new at nothing_known }
{
    m[at..at + STATE_WORDS].fill(0);
}

pub fn write_start(m: &mut [u64], at: usize)
    requires { at + state_words ≤ length m.old }
    ensures { Stored m.old m.new at start_facts }
{
    forget(m, at);
    let record = Held {
        kind: Kind::Record,
        number: exactly(0),
    };
    put_register(m, at, 1, record);
    let stack = Held {
        kind: Kind::Stack,
        number: exactly(512),
    };
    put_register(m, at, 10, stack);
}

fn join_register(m: &mut [u64], from: usize, to: usize)
    requires { (from + value_words ≤ length m.old) × (to + value_words ≤ length m.old) }
    ensures { Holds m.old m.new to (joined_value (held_in (held_at m.old to)) (held_in (held_at m.old from))) }
{
    let both = held_at(m, to).join(held_at(m, from));
    write_held(m, to, both);
}

pub fn join_state(m: &mut [u64], from: usize, to: usize)
    requires { (from + state_words ≤ to) × (to + state_words ≤ length m.old) }
    ensures { Stored m.old m.new to (joined_facts (facts_at m.old to) (facts_at m.old from)) }
{
    for r in 0..REGISTERS {
        join_register(m, from + VALUE_WORDS * r, to + VALUE_WORDS * r);
    }
}
