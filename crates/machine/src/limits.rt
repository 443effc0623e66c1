// The lengths that a program may have.
#![tactic(auto, unfolding(crate::specs::Machine::bad_program))]

ghost use Rattle.std.specs.Prelude.{◌≡◌};
ghost use Rattle.machine.specs.Machine.{bad_program};

pub fn bad_program(length: usize) -> bool
    ensures { result ≡ bad_program length }
{
    length == 0 || length % 8 != 0 || 8 * 4096 < length
}
