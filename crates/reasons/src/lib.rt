// Reasons and faults by their numbers, and both in words: what the C library, the command and the batch program say of them.
#![tactic(auto)]

ghost use Rattle.std.specs.Prelude.{◌≡◌};
ghost use Rattle.analysis.specs.Judged.{reason_number};
ghost use Rattle.reasons.specs.Numbers.{fault_number};
ghost use Rattle.reasons.specs.Names.{reason_name, fault_name};
ghost use Rattle.reasons.specs.Sentence.{sentence_of};

use analysis::Reason;
use machine::outcome::Cause;

// The number in docs/VERIFIER.md.
#[tactic(auto, unfolding(analysis::specs::Judged::reason_number))]
pub fn reason_number(reason: Reason) -> u64
    ensures { result ≡ reason_number reason }
{
    reason as u64
}

// The number in docs/MACHINE.md, section 5.
#[tactic(auto, unfolding(crate::specs::Numbers::fault_number))]
pub fn fault_number(cause: Cause) -> u64
    ensures { result ≡ fault_number cause }
{
    cause as u64
}

// The name of the reason with this number.
#[tactic(auto, unfolding(crate::specs::Names::reason_name))]
pub fn reason_name(number: u64) -> &'static [u8]
    ensures { result.now ≡ reason_name number }
{
    match number {
        1 => b"bad length",
        2 => b"record too long",
        3 => b"no instruction",
        4 => b"writes r10",
        5 => b"jumps back",
        6 => b"leaves the program",
        7 => b"reads an unset register",
        8 => b"access may be outside",
        9 => b"may report an address",
        12 => b"dead code",
        _ => b"no reason",
    }
}

// The name of the fault with this number.
#[tactic(auto, unfolding(crate::specs::Names::fault_name))]
pub fn fault_name(number: u64) -> &'static [u8]
    ensures { result.now ≡ fault_name number }
{
    match number {
        1 => b"no instruction",
        2 => b"off the end",
        3 => b"read an unset register",
        4 => b"wrote r10",
        5 => b"access outside",
        _ => b"no fault",
    }
}

// A clause that says what the reason is.
#[tactic(auto, unfolding(crate::specs::Sentence::sentence_of))]
pub fn sentence_of(reason: Reason) -> &'static [u8]
    ensures { result.now ≡ sentence_of reason }
{
    match reason {
        Reason::BadLength => b"the program is not 1 to 4096 instructions of 8 bytes",
        Reason::LongRecord => b"the record is longer than 1024 bytes",
        Reason::NoCode => b"these bytes are no instruction",
        Reason::WritesR10 => b"an instruction writes r10",
        Reason::JumpsBack => b"a jump goes back",
        Reason::JumpsOut => b"a path leads out of the program",
        Reason::ReadsUnset => b"a register is read that might be unset",
        Reason::Outside => b"a load or store might lie outside the record and the stack",
        Reason::LeaksAddress => b"an address is used where only a number may be",
        Reason::DeadCode => b"no path leads to this instruction",
    }
}
