// Bytes read from hexadecimal text of many lines: pairs of digits, with blanks anywhere between digits, and comments from `#` to the line end.
// Blanks and comments are stripped first, so that the pairs are read as those of one word.
ghost use Rattle.std.specs.Prelude.{◌≡◌, ◌+◌, ◌≤◌, ◌<◌, length, take, IfSome, if◌then◌else◌, count_by, ◌==◌};
ghost use Rattle.text.specs.Dump.{Bare, Dumped, Inside, commented, kept, line_ends};

use crate::digit::value_of;
use crate::hex::read_pairs;

// Why a text spells no bytes.
#[derive(Clone, Copy, Debug, PartialEq, Eq)]
pub enum DumpError {
    BadLetter { at: usize },
    OddDigits,
    TooLong,
    Empty,
}

// Whether a comment goes on after `b`.
#[tactic(auto, unfolding(crate::specs::Dump::commented))]
fn in_comment(comment: bool, b: u8) -> bool
    ensures { result ≡ commented comment b }
{
    match b {
        b'\n' => false,
        b'#' => true,
        _ => comment,
    }
}

// Whether `b` is neither blank nor in a comment.
#[tactic(auto, unfolding(crate::specs::Dump::kept, crate::specs::Dump::blank))]
fn is_kept(comment: bool, b: u8) -> bool
    ensures { kept comment b ≡ (if result then 1 else 0) }
{
    !comment && !matches!(b, b' ' | b'\t' | b'\n' | b'\r')
}

// The characters that are neither blank nor in a comment go to the start of `bare`.
#[tactic(auto, using(crate::proofs::Dumps::stripping_start, crate::proofs::Dumps::stripping_more, crate::proofs::Dumps::stripping_past, crate::proofs::Dumps::stripping_end))]
fn strip(s: &[u8], bare: &mut [u8]) -> usize
    requires { length s.now ≤ length bare.old }
    ensures { Bare s.now bare.new result }
{
    let mut comment = false;
    let mut n = 0;
    for b in s {
        comment = in_comment(comment, *b);
        if is_kept(comment, *b) {
            bare[n] = *b;
            n += 1;
        }
    }
    n
}

// The index of the first character that is neither digit nor blank nor in a comment.
fn bad_letter(s: &[u8]) -> Option<usize>
    ensures { IfSome result (λ at. at < length s.now) }
{
    let mut comment = false;
    for (i, b) in s.iter().enumerate() {
        comment = in_comment(comment, *b);
        if is_kept(comment, *b) && value_of(*b).is_none() {
            return Some(i);
        }
    }
    None
}

// Why `n` characters that are left of `s` spell no bytes: a bad letter comes first, because it may be why their number is odd.
fn refusal(s: &[u8], n: usize) -> DumpError
    ensures { Inside s.now result }
{
    if let Some(at) = bad_letter(s) {
        DumpError::BadLetter { at }
    } else if n == 0 {
        DumpError::Empty
    } else if n % 2 == 1 {
        DumpError::OddDigits
    } else {
        DumpError::TooLong
    }
}

// The bytes that `s` spells go to the start of `out`; the answer is how many they are. `bare` is scratch memory of at least as many bytes
// as `s`.
pub fn read_dump(s: &[u8], bare: &mut [u8], out: &mut [u8]) -> Result<usize, DumpError>
    ensures { Dumped s.now out.new (length bare.old) (length out.old) result }
{
    if bare.len() < s.len() {
        return Err(DumpError::TooLong);
    }
    let n = strip(s, bare);
    match read_pairs(&bare[..n], out) {
        Some(k) => Ok(k),
        None => Err(refusal(s, n)),
    }
}

fn count_ends(s: &[u8]) -> usize
    ensures { result ≡ count_by (λ b. b == 10) s.now }
{
    s.iter().filter(|b| **b == b'\n').count()
}

// The number of the line in which the index `at` stands, for messages: the first is 1.
#[tactic(auto, using(crate::proofs::Dumps::ends_counted, std::proofs::lemmas::List::take_min))]
pub fn line_of(s: &[u8], at: usize) -> u64
    ensures { result ≡ 1 + line_ends (take at s.now) }
{
    1 + count_ends(&s[..at.min(s.len())]) as u64
}
