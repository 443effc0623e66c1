// The words of the command line: one after the other, and which option or verb one is.
ghost use Rattle.std.specs.Prelude.{◌≡◌, ◌+◌, ◌≤◌, ◌<◌, ◌↔◌, length, IsTrue};
ghost use Rattle.text.specs.Part.{Part};

use crate::{Topic, Verb};
use loading::Kind;

// The arguments, and the index of the word that is read next.
#[derive(Clone, Copy)]
pub struct Words<'a> {
    pub args: &'a [u8],
    pub next: usize,
    ghost inside: { next ≤ length args.now },
}

impl<'a> Words<'a> {
    pub fn new(args: &'a [u8]) -> Words<'a>
        ensures args { result.args.now ≡ args.now }
        ensures start { result.next ≡ 0 }
    {
        Words { args, next: 0 }
    }

    // No word is left.
    pub fn is_empty(&self) -> bool
        ensures { IsTrue result ↔ (self.now.next ≡ length self.now.args.now) }
    {
        self.next == self.args.len()
    }

    // The next word: an empty one behind the last.
    #[tactic(auto, using(text::proofs::Parts::part_from_range, text::proofs::Parts::part_from_drop))]
    pub fn take(&mut self) -> &'a [u8]
        ensures args { self.new.args.now ≡ self.old.args.now }
        ensures word { Part self.old.args.now result.now }
        ensures inside { self.old.next + length result.now ≤ length self.old.args.now }
        ensures further { self.old.next < length self.old.args.now → self.old.next < self.new.next }
    {
        let args = self.args;
        let start = self.next;
        match args[start..].iter().position(|b| *b == 0) {
            Some(length) => {
                self.next = start + length + 1;
                &args[start..start + length]
            }
            None => {
                self.next = args.len();
                &args[start..]
            }
        }
    }
}

// An option that takes a number.
#[derive(Clone, Copy, Debug, PartialEq, Eq)]
pub enum NumberFlag {
    Record,
    RecordAt,
    StackAt,
    Budget,
}

// An option that takes a name.
#[derive(Clone, Copy, Debug, PartialEq, Eq)]
pub enum NameFlag {
    RecordFile,
    Section,
}

// An option that takes no value. `--` says that no word behind it is an option.
#[derive(Clone, Copy, Debug, PartialEq, Eq)]
pub enum Switch {
    Trace,
    Kind(Kind),
    Help,
    Dashes,
}

#[derive(Clone, Copy, Debug, PartialEq, Eq)]
pub enum Flag {
    Number(NumberFlag),
    Name(NameFlag),
    Switch(Switch),
}

impl Flag {
    // Whether the option may stand behind the verb.
    pub fn is_for(self, verb: Verb) -> bool {
        match self {
            Flag::Number(NumberFlag::Record) => matches!(verb, Verb::Verify | Verb::Explain),
            Flag::Number(_) | Flag::Name(NameFlag::RecordFile) | Flag::Switch(Switch::Trace) => {
                matches!(verb, Verb::Run)
            }
            Flag::Name(NameFlag::Section) | Flag::Switch(_) => true,
        }
    }
}

pub fn flag_of(word: &[u8]) -> Option<Flag> {
    match word {
        b"--record" => Some(Flag::Number(NumberFlag::Record)),
        b"--record-file" => Some(Flag::Name(NameFlag::RecordFile)),
        b"--record-at" => Some(Flag::Number(NumberFlag::RecordAt)),
        b"--stack-at" => Some(Flag::Number(NumberFlag::StackAt)),
        b"--budget" => Some(Flag::Number(NumberFlag::Budget)),
        b"--trace" => Some(Flag::Switch(Switch::Trace)),
        b"--section" => Some(Flag::Name(NameFlag::Section)),
        b"--raw" => Some(Flag::Switch(Switch::Kind(Kind::Raw))),
        b"--hex" => Some(Flag::Switch(Switch::Kind(Kind::Hex))),
        b"--elf" => Some(Flag::Switch(Switch::Kind(Kind::Elf))),
        b"--help" | b"-h" => Some(Flag::Switch(Switch::Help)),
        b"--" => Some(Flag::Switch(Switch::Dashes)),
        _ => None,
    }
}

// A word with a dash in front is an option, except `-` alone, which is standard input.
pub fn is_option(word: &[u8]) -> bool {
    matches!(word, [b'-', _, ..])
}

// What the first word, or the one after `help`, names.
pub fn topic_of(word: &[u8]) -> Option<Topic> {
    match word {
        b"verify" => Some(Topic::Of(Verb::Verify)),
        b"explain" => Some(Topic::Of(Verb::Explain)),
        b"run" => Some(Topic::Of(Verb::Run)),
        b"show" => Some(Topic::Of(Verb::Show)),
        b"batch" => Some(Topic::Batch),
        b"help" => Some(Topic::Help),
        b"--help" | b"-h" => Some(Topic::Whole),
        _ => None,
    }
}
