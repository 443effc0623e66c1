// The test for dead code: one pass over the jump graph, with a bit for each index that a jump goes to. It looks at opcode and off only, since
// the tests at each index have been passed, and needs no scratch memory.
ghost use Rattle.std.specs.Prelude.{◌≡◌, ◌/◌, ◌≤◌, ◌<◌, length};
ghost use Rattle.analysis.specs.declared.Finding.TheVariants as finding;
ghost use Rattle.analysis.specs.Form.{instruction, Fine};
ghost use Rattle.analysis.specs.Judged.{formed};
ghost use Rattle.analysis.specs.Paths as defined;
ghost use Rattle.verifier.specs.Targets.{targets_in, Marked, Left};

use crate::index::Index;
use analysis::{Finding, Reason};
use machine::instruction::fields_at;
use word::sign::extend;
use word::width::W16;

// Where jumps go to: a bit for each index of the longest program.
#[derive(Drop)]
struct Targets {
    words: [u64; 64],
}

impl Targets {
    #[tactic(auto, unfolding(crate::specs::Targets::targets_in, word::specs::Word::bit))]
    fn contains(&self, j: usize) -> bool
        requires { j < 4096 }
        ensures { result ≡ targets_in self.now.words j }
    {
        (self.words[j / 64] >> (j % 64)) % 2 == 1
    }

    fn insert(&mut self, j: usize)
        requires { j < 4096 }
        ensures { Marked j self.old.words self.new.words }
    {
        self.words[j / 64] |= 1 << (j % 64);
    }
}

// Whether the instruction goes on to the next one; a jump marks its target.
fn leave(program: &[u8], at: Index, targets: &mut Targets) -> bool
    requires size { at.n ≡ length program.now / 8 }
    requires fine { Fine at.n at.i (instruction program.now at.i) }
    ensures { Left at.i (instruction program.now at.i) result targets.old.words targets.new.words }
{
    let f = fields_at(program, at.i * 8);
    if (f.opcode % 8 != 5) & (f.opcode % 8 != 6) {
        return true;
    }
    if f.opcode == 0x95 {
        return false;
    }
    targets.insert(at.i + 1 + extend::<W16>(f.off) as usize);
    f.opcode != 0x05
}

// The first instruction that no path leads to, in a program of n instructions that has passed the tests at each index.
pub fn connected(program: &[u8], n: usize) -> Finding
    requires { (n ≤ 4096) × (n ≡ length program.now / 8) × (formed program.now (length program.now / 8) 0 ≡ finding.Accepted) }
    ensures { result ≡ defined.connected program.now }
{
    let mut targets = Targets { words: [0; 64] };
    let mut on = true;
    for i in 0..n {
        if !(on | targets.contains(i)) {
            return Finding::Refused {
                reason: Reason::DeadCode,
                place: i as u64,
            };
        }
        on = leave(program, Index { i, n }, &mut targets);
    }
    Finding::Accepted
}
