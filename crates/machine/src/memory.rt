// Memory as a probe sees it: the record, which it may read, and the stack, which it may read and write.
// An access is tested here; one that doesn't lie wholly where it may changes nothing.
#![tactic(auto, unfolding(crate::specs::Machine::within, crate::specs::Machine::bytes, crate::specs::Machine::loaded, word::specs::Word::write_bytes, word::specs::Word::read_bytes))]

ghost use Rattle.std.specs.Prelude.{◌≡◌, cond, ℕ, None, Some, ◌+◌, ◌-◌, ◌≤◌, ◌<◌, ◌^◌, length};
ghost use Rattle.word.specs.Word.{read_bytes, write_bytes};
ghost use Rattle.machine.specs.Ground.{world_of};
ghost use Rattle.machine.specs.Machine.{bytes, within, loaded};

use crate::instruction::Size;

// What a run has before it: the record, and the addresses that the probe is told of the record and of the stack.
#[derive(Clone, Copy)]
pub struct Ground<'a> {
    pub rec: &'a [u8],
    pub p: u64,
    pub s: u64,
}

pub fn byte_count(size: Size) -> usize
    ensures { (result ≡ bytes size) × (result ≤ 8) }
{
    size as usize
}

// Where the n bytes at the address a lie in the len bytes at base, if they lie there.
fn locate(base: u64, len: usize, a: u64, n: usize) -> Option<usize>
    ensures { result ≡ cond (within base len a n) (Some (a - base)) None }
{
    if a < base || len < n {
        return None;
    }
    let i = (a - base) as usize;
    if len - n < i {
        return None;
    }
    Some(i)
}

// Kept: two, four and eight bytes are each two halves, joined. One function over the count would name half of a const parameter, which the
// language has not, or would loop, and of a loop the compiler makes no single load.
pub fn fetch1(m: &[u8], i: usize) -> u64
    requires { i + 1 ≤ length m.now }
    ensures { result ≡ read_bytes 1 m.now i }
{
    m[i] as u64
}

pub fn fetch2(m: &[u8], i: usize) -> u64
    requires { i + 2 ≤ length m.now }
    ensures { result ≡ read_bytes 2 m.now i }
{
    fetch1(m, i) | (fetch1(m, i + 1) << 8)
}

fn fetch4(m: &[u8], i: usize) -> u64
    requires { i + 4 ≤ length m.now }
    ensures { result ≡ read_bytes 4 m.now i }
{
    fetch2(m, i) | (fetch2(m, i + 2) << 16)
}

// The number that the eight bytes at i spell.
pub fn fetch(m: &[u8], i: usize) -> u64
    requires { i + 8 ≤ length m.now }
    ensures { result ≡ read_bytes 8 m.now i }
{
    fetch4(m, i) | (fetch4(m, i + 4) << 32)
}

// The number that the bytes of a size at i spell.
fn get(m: &[u8], i: usize, size: Size) -> u64
    requires { i + bytes size ≤ length m.now }
    ensures { result ≡ read_bytes (bytes size) m.now i }
{
    match size {
        Size::One => fetch1(m, i),
        Size::Two => fetch2(m, i),
        Size::Four => fetch4(m, i),
        Size::Eight => fetch(m, i),
    }
}

// What a load at the address a finds, in the record or in the stack.
pub fn load(ground: Ground, stack: &[u8], a: u64, size: Size) -> Option<u64>
    ensures { result ≡ loaded (world_of ground.entry) stack.now a size }
{
    let n = byte_count(size);
    let rec = ground.rec;
    if let Some(i) = locate(ground.p, rec.len(), a, n) {
        return Some(get(rec, i, size));
    }
    let i = locate(ground.s, stack.len(), a, n)?;
    Some(get(stack, i, size))
}

fn put2(m: &mut [u8], i: usize, x: u64)
    requires { i + 2 ≤ length m.old }
    ensures { m.new ≡ write_bytes 2 m.old i x }
{
    m[i] = (x % 256) as u8;
    m[i + 1] = (x / 256 % 256) as u8;
}

fn put4(m: &mut [u8], i: usize, x: u64)
    requires { i + 4 ≤ length m.old }
    ensures { m.new ≡ write_bytes 4 m.old i x }
{
    put2(m, i, x);
    put2(m, i + 2, x / 65536);
}

fn put8(m: &mut [u8], i: usize, x: u64)
    requires { i + 8 ≤ length m.old }
    ensures { m.new ≡ write_bytes 8 m.old i x }
{
    put4(m, i, x);
    put4(m, i + 4, x / 4294967296);
}

// The low bytes of x go to i.
fn put(m: &mut [u8], i: usize, size: Size, x: u64)
    requires { i + bytes size ≤ length m.old }
    ensures { m.new ≡ write_bytes (bytes size) m.old i x }
{
    match size {
        Size::One => {
            m[i] = (x % 256) as u8;
        }
        Size::Two => put2(m, i, x),
        Size::Four => put4(m, i, x),
        Size::Eight => put8(m, i, x),
    }
}

// Whether a store at the address a may be made; if so, it is made.
pub fn store(stack: &mut [u8], s: u64, a: u64, size: Size, x: u64) -> bool
    ensures allowed { result ≡ within s (length stack.old) a (bytes size) }
    ensures made { stack.new ≡ cond result (write_bytes (bytes size) stack.old (a - s) x) stack.old }
{
    let Some(i) = locate(s, stack.len(), a, byte_count(size)) else {
        return false;
    };
    put(stack, i, size, x);
    true
}
