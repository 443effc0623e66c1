// The functions of `probewarden` under their names in C. A slice is a pointer and a length there, as include/probewarden.h says.
#![tactic(auto)]

ghost use Rattle.std.specs.Prelude.{◌≡◌};
ghost use Rattle.text.specs.Buffer.{Put};
ghost use Rattle.probewarden.specs.Encoding.{ended};
ghost use Rattle.probewarden.specs.Exported.{enough, Verified, Interpreted};
ghost use Rattle.reasons.specs.Names.{reason_name, fault_name};

use probewarden::exported;

#[unsafe(no_mangle)]
pub extern "C" fn pw_scratch_words(instructions: u64) -> u64
    ensures { result ≡ enough instructions }
{
    exported::pw_scratch_words(instructions)
}

#[unsafe(no_mangle)]
pub extern "C" fn pw_verify(
    program: &[u8],
    record_len: u64,
    rules: u64,
    limit: u64,
    scratch: &mut [u64],
    answer: &mut [u64],
) -> u64
    ensures { Verified program.now record_len rules scratch.old scratch.new
        answer.old answer.new result }
{
    exported::pw_verify(program, record_len, rules, limit, scratch, answer)
}

#[unsafe(no_mangle)]
pub extern "C" fn pw_run(
    program: &[u8],
    rec: &[u8],
    p: u64,
    s: u64,
    stack: &mut [u8],
    budget: u64,
    answer: &mut [u64],
) -> u64
    ensures { Interpreted program.now rec.now p s stack.old stack.new budget answer.old answer.new result }
{
    exported::pw_run(program, rec, p, s, stack, budget, answer)
}

#[unsafe(no_mangle)]
pub extern "C" fn pw_reason_name(reason: u64, out: &mut [u8]) -> usize
    ensures { Put out.old 0 (ended (reason_name reason)) out.new result }
{
    exported::pw_reason_name(reason, out)
}

#[unsafe(no_mangle)]
pub extern "C" fn pw_fault_name(fault: u64, out: &mut [u8]) -> usize
    ensures { Put out.old 0 (ended (fault_name fault)) out.new result }
{
    exported::pw_fault_name(fault, out)
}
