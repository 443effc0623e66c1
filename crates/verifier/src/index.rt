// Where an instruction stands.
ghost use Rattle.std.specs.Prelude.{◌≤◌, ◌<◌};

// Index i, in a program of n instructions.
#[derive(Clone, Copy)]
pub struct Index {
    pub i: usize,
    pub n: usize,
    ghost inside: { (i < n) × (n ≤ 4096) },
}
