// Numbers at an index of a file, lowest byte first.
ghost use Rattle.std.specs.Prelude.{◌≡◌, ◌+◌, ◌≤◌, ◌<◌, length};
ghost use Rattle.object.specs.Object.{word16, word32, word64};

#[tactic(auto, unfolding(crate::specs::Object::word16))]
pub fn half(s: &[u8], at: usize) -> u64
    requires { at + 2 ≤ length s.now }
    ensures { (result ≡ word16 s.now at) × (result < 65536) }
{
    u64::from(s[at]) + 256 * u64::from(s[at + 1])
}

#[tactic(auto, unfolding(crate::specs::Object::word32))]
pub fn word(s: &[u8], at: usize) -> u64
    requires { at + 4 ≤ length s.now }
    ensures { (result ≡ word32 s.now at) × (result < 4294967296) }
{
    half(s, at) + 65536 * half(s, at + 2)
}

#[tactic(auto, unfolding(crate::specs::Object::word64))]
pub fn long(s: &[u8], at: usize) -> u64
    requires { at + 8 ≤ length s.now }
    ensures { result ≡ word64 s.now at }
{
    word(s, at) + 4294967296 * word(s, at + 4)
}
