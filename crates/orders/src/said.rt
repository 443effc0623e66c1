// One word of a verb's arguments after the other: what it adds to the order, or what is wrong with it.
ghost use Rattle.std.specs.Prelude.{◌≡◌, ◌≤◌, ◌<◌, length, IfErr, IfOk};
ghost use Rattle.text.specs.Part.{Part};
ghost use Rattle.orders.specs.Orders.{Placed, SamePieces, Sane, Says, SaysTask};

use crate::words::{Flag, NameFlag, NumberFlag, Switch, Words, flag_of, is_option};
use crate::{Fault, Mistake, Order, Request, Start, Task, Topic, Verb};
use loading::Kind;
use text::number::read_number;

// Where the record and the stack of a run lie, and after how many steps it ends, where these are not told.
const RECORD_AT: u64 = 0x100000;

const STACK_AT: u64 = 0x200000;

const BUDGET: u64 = 4096;

// What the words so far say.
#[derive(Clone, Copy, Default)]
pub struct Said<'a> {
    file: Option<&'a [u8]>,
    kind: Option<Kind>,
    section: Option<&'a [u8]>,
    record_length: Option<u64>,
    record_file: Option<&'a [u8]>,
    record_at: Option<u64>,
    stack_at: Option<u64>,
    budget: Option<u64>,
    trace: bool,
    help: bool,
    // No further word is an option.
    dashes: bool,
}

// An option's value, and all of the option's words.
#[derive(Clone, Copy)]
struct Valued<'a> {
    value: &'a [u8],
    words: &'a [u8],
}

// The name of an option: its word up to an `=`.
fn name_of(word: &[u8]) -> &[u8]
    ensures { length result.now ≤ length word.now }
{
    match word.iter().position(|b| *b == b'=') {
        Some(end) => &word[..end],
        None => word,
    }
}

// The value of an option whose word starts at `start`: what stands behind the name in the word, or else the next word.
#[tactic(auto, using(crate::proofs::Pieces::range_of_part, text::proofs::Parts::part_from_range))]
fn take_value<'a>(
    words: &mut Words<'a>,
    start: usize,
    word: &'a [u8],
    name: &[u8],
) -> Result<Valued<'a>, Mistake<'a>>
    requires inside { start ≤ words.old.next }
    requires word { Part words.old.args.now word.now }
    requires name { length name.now ≤ length word.now }
    ensures args { words.new.args.now ≡ words.old.args.now }
    ensures onward { words.old.next ≤ words.new.next }
    ensures ok { IfOk result (λ valued. Part words.old.args.now valued.value.now × Part words.old.args.now valued.words.now) }
    ensures err { IfErr result (λ mistake. Part words.old.args.now mistake.words.now) }
{
    if name.len() < word.len() {
        let value = &word[name.len() + 1..];
        return Ok(Valued { value, words: word });
    }
    if words.is_empty() {
        return Err(Fault::MissingValue.of(word));
    }
    let from = words.next;
    let value = words.take();
    let words = &words.args[start..from + value.len()];
    Ok(Valued { value, words })
}

impl<'a> Said<'a> {
    // Whether the option was given.
    fn has(&self, flag: Flag) -> bool {
        match flag {
            Flag::Number(NumberFlag::Record) => self.record_length.is_some(),
            Flag::Number(NumberFlag::RecordAt) => self.record_at.is_some(),
            Flag::Number(NumberFlag::StackAt) => self.stack_at.is_some(),
            Flag::Number(NumberFlag::Budget) => self.budget.is_some(),
            Flag::Name(NameFlag::RecordFile) => self.record_file.is_some(),
            Flag::Name(NameFlag::Section) => self.section.is_some(),
            Flag::Switch(Switch::Kind(kind)) => self.kind == Some(kind),
            Flag::Switch(Switch::Trace) => self.trace,
            Flag::Switch(Switch::Help) => self.help,
            Flag::Switch(Switch::Dashes) => self.dashes,
        }
    }

    // The option that a name is, where it may stand here.
    fn test_option(&self, verb: Verb, name: &[u8]) -> Result<Flag, Fault> {
        let flag = flag_of(name).ok_or(Fault::UnknownOption)?;
        if !flag.is_for(verb) {
            Err(Fault::NotForVerb)
        } else if self.has(flag) {
            Err(Fault::Twice)
        } else if matches!(flag, Flag::Switch(Switch::Kind(_))) && self.kind.is_some() {
            Err(Fault::TwoKinds)
        } else {
            Ok(flag)
        }
    }

    // A number for an option. Whether a record may be so long is for the verifier to say.
    fn put_number(&mut self, flag: NumberFlag, n: u64)
        ensures { SamePieces self.old self.new }
    {
        match flag {
            NumberFlag::Record => self.record_length = Some(n),
            NumberFlag::RecordAt => self.record_at = Some(n),
            NumberFlag::StackAt => self.stack_at = Some(n),
            NumberFlag::Budget => self.budget = Some(n),
        }
    }

    fn put_switch(&mut self, switch: Switch)
        ensures { SamePieces self.old self.new }
    {
        match switch {
            Switch::Kind(kind) => self.kind = Some(kind),
            Switch::Trace => self.trace = true,
            Switch::Help => self.help = true,
            Switch::Dashes => self.dashes = true,
        }
    }

    // A name for an option.
    fn put_name(&mut self, args: &[u8], flag: NameFlag, name: &'a [u8]) -> Result<(), Fault>
        requires sane { Sane args.now self.old }
        requires name { Part args.now name.now }
        ensures { Sane args.now self.new }
    {
        match flag {
            NameFlag::RecordFile => self.record_file = Some(name),
            NameFlag::Section if name.is_empty() => return Err(Fault::EmptySection),
            NameFlag::Section => self.section = Some(name),
        }
        Ok(())
    }

    // An option, whose word starts at `start`, with its value.
    fn take_option(
        &mut self,
        verb: Verb,
        words: &mut Words<'a>,
        start: usize,
        word: &'a [u8],
    ) -> Result<(), Mistake<'a>>
        requires sane { Sane words.old.args.now self.old }
        requires inside { start ≤ words.old.next }
        requires word { Part words.old.args.now word.now }
        ensures args { words.new.args.now ≡ words.old.args.now }
        ensures onward { words.old.next ≤ words.new.next }
        ensures sane { Sane words.old.args.now self.new }
        ensures err { IfErr result (λ mistake. Part words.old.args.now mistake.words.now) }
    {
        let name = name_of(word);
        let flag = self
            .test_option(verb, name)
            .map_err(|fault| fault.of(word))?;
        match flag {
            Flag::Switch(_) if name.len() < word.len() => Err(Fault::UnwantedValue.of(word)),
            Flag::Switch(switch) => {
                self.put_switch(switch);
                Ok(())
            }
            Flag::Number(flag) => {
                let Valued { value, words } = take_value(words, start, word, name)?;
                let n = read_number(value).ok_or(Fault::NotANumber.of(words))?;
                self.put_number(flag, n);
                Ok(())
            }
            Flag::Name(flag) => {
                let Valued { value, words: all } = take_value(words, start, word, name)?;
                self.put_name(words.args, flag, value)
                    .map_err(|fault| fault.of(all))
            }
        }
    }

    // The next word: an option, or the file.
    fn take_word(&mut self, verb: Verb, words: &mut Words<'a>) -> Result<(), Mistake<'a>>
        requires some { words.old.next < length words.old.args.now }
        requires sane { Sane words.old.args.now self.old }
        ensures args { words.new.args.now ≡ words.old.args.now }
        ensures further { words.old.next < words.new.next }
        ensures sane { Sane words.old.args.now self.new }
        ensures err { IfErr result (λ mistake. Part words.old.args.now mistake.words.now) }
    {
        let start = words.next;
        let word = words.take();
        if !self.dashes && is_option(word) {
            return self.take_option(verb, words, start, word);
        }
        if self.file.is_some() {
            return Err(Fault::TwoFiles.of(word));
        }
        self.file = Some(word);
        Ok(())
    }

    // What the verb is to do, where it has what it needs.
    fn task(&self, verb: Verb) -> Result<Task<'a>, Fault>
        ensures { IfOk result (SaysTask self.now) }
    {
        match verb {
            Verb::Verify => {
                let record_length = self.record_length.ok_or(Fault::NoRecord)?;
                Ok(Task::Verify { record_length })
            }
            Verb::Explain => {
                let record_length = self.record_length.ok_or(Fault::NoRecord)?;
                Ok(Task::Explain { record_length })
            }
            Verb::Run => {
                let record_file = self.record_file.ok_or(Fault::NoRecordFile)?;
                Ok(Task::Run(Start {
                    record_file,
                    record_at: self.record_at.unwrap_or(RECORD_AT),
                    stack_at: self.stack_at.unwrap_or(STACK_AT),
                    budget: self.budget.unwrap_or(BUDGET),
                    trace: self.trace,
                }))
            }
            Verb::Show => Ok(Task::Show),
        }
    }

    // The order once all words are read, where nothing is missing and they go together. Standard input cannot be both the probe and the
    // record.
    fn order(&self, verb: Verb) -> Result<Order<'a>, Fault>
        ensures { IfOk result (Says self.now) }
    {
        let file = self.file.ok_or(Fault::NoFile)?;
        let section = self.section;
        let kind = self.kind;
        if section.is_some() && matches!(kind, Some(Kind::Raw | Kind::Hex)) {
            return Err(Fault::SectionNeedsElf);
        }
        let task = self.task(verb)?;
        if matches!((file, self.record_file), (b"-", Some(b"-"))) {
            return Err(Fault::TwoStdin);
        }
        Ok(Order {
            task,
            file,
            kind,
            section,
        })
    }
}

// The words of a verb. Of what may be wrong once they are read only a section is quoted.
#[tactic(auto, using(crate::proofs::Pieces::part_nil, crate::proofs::Saying::said_pieces))]
pub fn parse_words<'a>(verb: Verb, words: &mut Words<'a>) -> Result<Request<'a>, Mistake<'a>>
    ensures ok { IfOk result (Placed words.old.args.now) }
    ensures err { IfErr result (λ mistake. Part words.old.args.now mistake.words.now) }
{
    let mut said = Said::default();
    while !words.is_empty() && !said.help {
        said.take_word(verb, words)?;
    }
    if said.help {
        return Ok(Request::HelpOn(Topic::Of(verb)));
    }
    match said.order(verb) {
        Ok(order) => Ok(Request::Do(order)),
        Err(fault) => Err(fault.of(said.section.unwrap_or(b""))),
    }
}
