// What waits for each index: a block an index, its first word the mark that something waits there. A state comes to an index, where it is
// copied, or joined to what waits.
ghost use Rattle.std.specs.Prelude.{◌≡◌, ◌+◌, ◌*◌, ◌≤◌, ◌<◌, ◌^◌, length, get_or, ◌==◌};
ghost use Rattle.analysis.specs.Judged as defined;
ghost use Rattle.waiting.specs.State.{held_in, facts_at};
ghost use Rattle.waiting.specs.Store.{Cleared, Arrived, Begun};
ghost use Rattle.waiting.specs.Layout as layout;
ghost use Rattle.waiting.specs.Layout.{block_words};

use crate::BLOCK_WORDS;
use crate::state::{State, copy_state, join_state, put_register, write_start};
use crate::value::Held;

// Where the block of index i starts.
fn block_of(i: usize) -> usize
    requires { layout.state_of i < 2 ^ 63 }
    ensures { result ≡ layout.block_of i }
{
    BLOCK_WORDS * i
}

// Where the state of index i starts.
pub fn state_of(i: usize) -> usize
    requires { layout.state_of i < 2 ^ 63 }
    ensures { result ≡ layout.state_of i }
{
    block_of(i) + 1
}

// The state of index i.
pub fn state_at(m: &[u64], i: usize) -> State
    requires { block_words * (i + 1) ≤ length m.now }
    ensures { (result.words.now ≡ m.now) × (result.at ≡ layout.state_of i) }
{
    State {
        words: m,
        at: state_of(i),
    }
}

// Whether a state waits at index i.
pub fn waits_at(m: &[u64], i: usize) -> bool
    requires { block_words * (i + 1) ≤ length m.now }
    ensures { result ≡ (get_or m.now (layout.block_of i) 0 == 1) }
{
    m[block_of(i)] == 1
}

// Nothing waits anywhere any more.
fn clear(m: &mut [u64], n: usize)
    requires { block_words * n ≤ length m.old }
    ensures { Cleared n m.old m.new }
{
    for j in 0..n {
        m[block_of(j)] = 0;
    }
}

// The start waits at index 0, and nothing elsewhere.
pub fn begin(m: &mut [u64], n: usize)
    requires { (0 < n) × (block_words * n ≤ length m.old) }
    ensures { Begun n m.old m.new }
{
    clear(m, n);
    write_start(m, state_of(0));
    m[block_of(0)] = 1;
}

// Kept: the words and how many indices they are for, and no value of both: each that changes the words would have to say that they are the
// same lent ones still, and for as many indices.
pub fn arrive(m: &mut [u64], n: usize, i: usize, j: usize)
    requires { (i < j) × (j < n) × (block_words * n ≤ length m.old) }
    ensures { Arrived n i m.old m.new j (facts_at m.old (layout.state_of i)) }
{
    let to = state_of(j);
    if waits_at(m, j) {
        join_state(m, state_of(i), to);
    } else {
        copy_state(m, state_of(i), to);
        m[block_of(j)] = 1;
    }
}

// The state with h in register d comes to the next index, where nothing waits: it is copied, and changed there.
pub fn arrive_with(m: &mut [u64], n: usize, i: usize, d: u64, h: Held)
    requires next_within { (i + 1 < n) × (block_words * n ≤ length m.old) }
    requires nothing_waits_there { get_or m.old (block_words * (i + 1)) 0 ≡ 1 → ⊥ }
    ensures { Arrived n i m.old m.new (i + 1) (defined.having (facts_at m.old (layout.state_of i)) d (held_in h)) }
{
    let to = state_of(i + 1);
    copy_state(m, state_of(i), to);
    put_register(m, to, d, h);
    m[block_of(i + 1)] = 1;
}
