// What a request about known bits says, and the pair that it is answered with.
ghost use Rattle.std.specs.Prelude.{◌≡◌};
ghost use Rattle.console.specs.Naming.{named_in};
ghost use Rattle.console.specs.Bits.{task_named, width_named, bits_of, asked_of, places, Serves};

use crate::request::Words;
use bit_calculator::operation::alu;
use bit_calculator::paths::{cut, join};
use known_bits::Bits;
use machine::instruction::Width;
use text::pair::read_pair;
use word::width::{W32, W64};
use word::{Operation, width};

// What is done with the pairs.
#[derive(Clone, Copy)]
pub enum Task {
    Alu(Operation),
    Join,
    Cut,
}

// All that a request says.
#[derive(Clone, Copy)]
pub struct Asked {
    pub task: Task,
    pub width: Width,
    pub a: Bits,
    pub b: Bits,
}

// What the word names: the value behind the first name that is the word.
// Kept: with `iter().find(..).map(..)` the check did not close `returns`, from what `find` runs to `named_in`.
pub fn named<T: Copy>(names: &[(&[u8], T)], word: &[u8]) -> Option<T>
    ensures { result ≡ named_in names.now word.now }
{
    for (name, value) in names {
        if word == *name {
            return Some(*value);
        }
    }
    None
}

const TASKS: [(&[u8], Task); 15] = [
    (b"ADD", Task::Alu(Operation::Add)),
    (b"SUB", Task::Alu(Operation::Sub)),
    (b"MUL", Task::Alu(Operation::Mul)),
    (b"DIV", Task::Alu(Operation::Div)),
    (b"OR", Task::Alu(Operation::Or)),
    (b"AND", Task::Alu(Operation::And)),
    (b"LSH", Task::Alu(Operation::Lsh)),
    (b"RSH", Task::Alu(Operation::Rsh)),
    (b"NEG", Task::Alu(Operation::Neg)),
    (b"MOD", Task::Alu(Operation::Mod)),
    (b"XOR", Task::Alu(Operation::Xor)),
    (b"MOV", Task::Alu(Operation::Mov)),
    (b"ARSH", Task::Alu(Operation::Arsh)),
    (b"JOIN", Task::Join),
    (b"CUT", Task::Cut),
];

#[tactic(auto, unfolding(crate::specs::Bits::task_named, crate::specs::Bits::later_task))]
fn task_named(word: &[u8]) -> Option<Task>
    ensures { result ≡ task_named word.now }
{
    named(&TASKS, word)
}

const WIDTHS: [(&[u8], Width); 2] = [(b"64", Width::Long), (b"32", Width::Short)];

#[tactic(auto, unfolding(crate::specs::Bits::width_named))]
fn width_named(word: &[u8]) -> Option<Width>
    ensures { result ≡ width_named word.now }
{
    named(&WIDTHS, word)
}

// A pair of the right form: no bit is in both numbers.
#[tactic(auto, unfolding(crate::specs::Bits::bits_of, crate::specs::Bits::apart))]
fn bits_of(word: &[u8]) -> Option<Bits>
    ensures { result ≡ bits_of word.now }
{
    let (value, mask) = read_pair(word)?;
    if value & mask != 0 {
        return None;
    }
    Some(Bits { value, mask })
}

// OP WIDTH v/m v/m, and no word after them.
#[tactic(auto, unfolding(crate::specs::Bits::asked_of, crate::specs::Bits::gathered))]
pub fn read_asked(words: &mut Words<'_>) -> Option<Asked>
    ensures { result ≡ asked_of words.old.rest.now }
{
    let task = words.take();
    let width = words.take();
    let a = words.take();
    let b = words.take();
    if !words.is_empty() {
        return None;
    }
    Some(Asked {
        task: task_named(task)?,
        width: width_named(width)?,
        a: bits_of(a)?,
        b: bits_of(b)?,
    })
}

fn work_at<W: width::Width>(task: Task, a: Bits, b: Bits) -> Bits
    ensures { Serves task W.BITS a b result }
{
    match task {
        Task::Alu(operation) => alu::<W>(operation, a, b),
        Task::Join => join(cut::<W>(a), cut::<W>(b)),
        Task::Cut => cut::<W>(a),
    }
}

// The pair that answers a request.
#[tactic(auto, unfolding(crate::specs::Bits::places))]
pub fn work(asked: Asked) -> Bits
    ensures { Serves asked.task (places asked.width) asked.a asked.b result }
{
    match asked.width {
        Width::Long => work_at::<W64>(asked.task, asked.a, asked.b),
        Width::Short => work_at::<W32>(asked.task, asked.a, asked.b),
    }
}
