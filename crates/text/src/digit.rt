// A digit's value.
ghost use Rattle.std.specs.Prelude.{◌<◌, SomeIff};
ghost use Rattle.text.specs.Digit.{digit};

// The value of a hexadecimal digit.
#[tactic(auto, unfolding(crate::specs::Digit::digit, crate::specs::Digit::among))]
pub fn value_of(b: u8) -> Option<u64>
    ensures { SomeIff result (digit b < 16) (digit b) }
{
    char::from(b).to_digit(16).map(u64::from)
}
