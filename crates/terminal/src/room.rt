// Memory that is filled with one value. What a caller's proof sees is its length and a fact about each element, and no long list.
ghost use Rattle.std.specs.Prelude.{◌≡◌, length, All};

pub fn filled<T: Copy, const N: usize>(value: T) -> [T; N]
    ensures as_long { length result ≡ N }
    ensures filled { All (λ element. element ≡ value) result }
{
    [value; N]
}
