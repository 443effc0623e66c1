// The words of the command line as an order, what is wrong with them, and the help text: all on slices, with no input or output.
// The arguments are one slice, each followed by a 0 byte. The definitions that the contracts cite are in `specs/`.
#![tactic(auto)]

ghost use Rattle.std.specs.Prelude.{◌≡◌, IfErr, IfOk};
ghost use Rattle.text.specs.Part.{Part};
ghost use Rattle.orders.specs.Orders.{Placed};

use loading::Kind;
use said::parse_words;
use words::{Flag, Switch, Words, flag_of, topic_of};

mod manual;
mod message;
mod said;
mod words;

pub use manual::help;
pub use message::complain;

#[derive(Clone, Copy, Debug, PartialEq, Eq)]
pub enum Verb {
    Verify,
    Explain,
    Run,
    Show,
}

#[derive(Clone, Copy, Debug, PartialEq, Eq)]
pub enum Topic {
    Whole,
    Of(Verb),
    Batch,
    Help,
}

// How a run starts: the file with the record, where the record and the stack lie, and after how many steps the run ends.
#[derive(Clone, Copy, Debug, PartialEq, Eq)]
pub struct Start<'a> {
    pub record_file: &'a [u8],
    pub record_at: u64,
    pub stack_at: u64,
    pub budget: u64,
    pub trace: bool,
}

// What is to be done with a program.
#[derive(Clone, Copy, Debug, PartialEq, Eq)]
pub enum Task<'a> {
    Verify { record_length: u64 },
    Explain { record_length: u64 },
    Run(Start<'a>),
    Show,
}

// A task, and where its program is: the file, and what it holds and the section of an object where these are told.
#[derive(Clone, Copy, Debug, PartialEq, Eq)]
pub struct Order<'a> {
    pub task: Task<'a>,
    pub file: &'a [u8],
    pub kind: Option<Kind>,
    pub section: Option<&'a [u8]>,
}

#[derive(Clone, Copy, Debug, PartialEq, Eq)]
pub enum Request<'a> {
    Do(Order<'a>),
    HelpOn(Topic),
}

// What may be wrong with the command line.
#[derive(Clone, Copy, Debug, PartialEq, Eq)]
pub enum Fault {
    // About the first word, or those after `help` and `batch`.
    NoVerb,
    UnknownVerb,
    BatchAlone,
    ExtraWord,
    // About an option that may not stand where it does.
    UnknownOption,
    NotForVerb,
    Twice,
    TwoKinds,
    // About an option's value.
    MissingValue,
    UnwantedValue,
    NotANumber,
    EmptySection,
    // About words that do not go together.
    TwoFiles,
    SectionNeedsElf,
    TwoStdin,
    // About what a verb needs and does not have.
    NoFile,
    NoRecord,
    NoRecordFile,
}

// A fault, and the words that it is about.
#[derive(Clone, Copy, Debug, PartialEq, Eq)]
pub struct Mistake<'a> {
    pub fault: Fault,
    pub words: &'a [u8],
}

impl Fault {
    fn of(self, words: &[u8]) -> Mistake<'_>
        ensures { result.words.now ≡ words.now }
    {
        Mistake { fault: self, words }
    }
}

// What comes after `help`: nothing, or one word that has a help text.
fn parse_help<'a>(words: &mut Words<'a>) -> Result<Request<'a>, Mistake<'a>>
    ensures ok { IfOk result (Placed words.old.args.now) }
    ensures err { IfErr result (λ mistake. Part words.old.args.now mistake.words.now) }
{
    if words.is_empty() {
        return Ok(Request::HelpOn(Topic::Whole));
    }
    let word = words.take();
    if !words.is_empty() {
        return Err(Fault::ExtraWord.of(words.take()));
    }
    match topic_of(word) {
        Some(topic) => Ok(Request::HelpOn(topic)),
        None => Err(Fault::UnknownVerb.of(word)),
    }
}

// `batch` is a program of its own: here is only its help text.
fn parse_batch<'a>(words: &mut Words<'a>) -> Result<Request<'a>, Mistake<'a>>
    ensures ok { IfOk result (Placed words.old.args.now) }
    ensures err { IfErr result (λ mistake. Part words.old.args.now mistake.words.now) }
{
    let word = words.take();
    match flag_of(word) {
        Some(Flag::Switch(Switch::Help)) => Ok(Request::HelpOn(Topic::Batch)),
        _ => Err(Fault::BatchAlone.of(word)),
    }
}

// The order that the arguments give. Each piece that the answer names stands in the arguments.
#[tactic(auto, using(text::proofs::Parts::part_whole))]
pub fn parse(args: &[u8]) -> Result<Request<'_>, Mistake<'_>>
    ensures ok { IfOk result (Placed args.now) }
    ensures err { IfErr result (λ mistake. Part args.now mistake.words.now) }
{
    let mut words = Words::new(args);
    if words.is_empty() {
        return Err(Fault::NoVerb.of(args));
    }
    let word = words.take();
    match topic_of(word) {
        Some(Topic::Whole) => Ok(Request::HelpOn(Topic::Whole)),
        Some(Topic::Of(verb)) => parse_words(verb, &mut words),
        Some(Topic::Batch) => parse_batch(&mut words),
        Some(Topic::Help) => parse_help(&mut words),
        None => Err(Fault::UnknownVerb.of(word)),
    }
}
