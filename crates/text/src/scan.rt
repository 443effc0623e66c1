// Where a character stands in a text.
ghost use Rattle.std.specs.Prelude.{◌≡◌, position, not, ◌==◌};

// The index of the first character that is `b`.
pub fn place_of(s: &[u8], b: u8) -> Option<usize>
    ensures { result ≡ position (λ x. x == b) s.now }
{
    s.iter().position(|x| *x == b)
}

// The index of the first character that is not `b`.
pub fn place_of_other(s: &[u8], b: u8) -> Option<usize>
    ensures { result ≡ position (λ x. not (x == b)) s.now }
{
    s.iter().position(|x| *x != b)
}
