// What obeying an instruction answers, and the test of the mask that comes before its effect.
ghost use Rattle.std.specs.Prelude.{◌≡◌, ◌<◌};
ghost use Rattle.dispatch.specs.Represent.{is_set, Kept};

// What obeying an instruction leads to: the next index, with the mask of the registers that are set; a verdict; a fault, whose
// cause `why` finds once the run has stopped, so that no step carries one.
#[derive(Clone, Copy)]
pub enum Next {
    Go { pc: u64, live: u64 },
    Exit(u64),
    Stop,
}

// Where a run stands: the index of an instruction of the program, and the mask of the registers that are set.
#[derive(Clone, Copy)]
pub struct Point {
    pub pc: u64,
    pub live: u64,
    ghost kept: { Kept live pc },
}

// Whether register r is set; one above 10 never is.
#[tactic(auto, unfolding(crate::specs::Represent::is_set, word::specs::Word::bit))]
pub fn has(live: u64, r: u64) -> bool
    requires { r < 64 }
    ensures { result ≡ is_set live r }
{
    (live >> r) % 2 == 1
}
