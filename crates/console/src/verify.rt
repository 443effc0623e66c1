// What the verifier finds in the program of a request.
ghost use Rattle.std.specs.Prelude.{◌≡◌, length};
ghost use Rattle.console.specs.Answer.{verify_reply};

use crate::answer::Reply;
use crate::request::Words;
use text::hex::read_hex;
use text::number::read_decimal;

// R PROGRAM, and no word after them. The program's bytes go to the start of `program`.
#[tactic(auto, unfolding(crate::specs::Answer::verify_reply, crate::specs::Answer::due_finding, crate::specs::Answer::found_by))]
pub fn verify(words: &mut Words<'_>, program: &mut [u8], scratch: &mut [u64]) -> Option<Reply>
    ensures { result ≡ verify_reply words.old.rest.now (length program.old) (length scratch.old) }
{
    let record_length = words.take();
    let bytes = words.take();
    if !words.is_empty() {
        return None;
    }
    let record_length = read_decimal(record_length)?;
    let n = read_hex(bytes, program)?;
    let judged = verifier::verify::verify(&program[..n], record_length, scratch).ok()?;
    Some(Reply::Found(judged.finding))
}
