// One line for standard error that says what is wrong with the command line, with the words that were found. What finds no room is left out.
ghost use Rattle.text.specs.Page.{Longer};

use crate::words::{Words, topic_of};
use crate::{Fault, Mistake, Topic, Verb};
use text::page::Page;

// Of the words in a message 64 characters are enough.
const ENOUGH: usize = 64;

// A character that moves no cursor: words are parted by 0 bytes, and a word may hold anything else.
fn visible(b: u8) -> u8 {
    match b {
        0 => b' ',
        1..32 | 127 => b'?',
        _ => b,
    }
}

// Words between two texts, with a space between each two.
fn quote(page: &mut Page<'_>, before: &[u8], words: &[u8], after: &[u8])
    ensures { Longer page.old page.new }
{
    page.text(before);
    for b in words.iter().take(ENOUGH) {
        page.letter(visible(*b));
    }
    if words.len() > ENOUGH {
        page.text(b"..");
    }
    page.text(after);
}

// The fault with its words, or with the verb that lacks something.
fn write_fault(page: &mut Page<'_>, mistake: Mistake<'_>, verb: &[u8])
    ensures { Longer page.old page.new }
{
    let words = mistake.words;
    match mistake.fault {
        Fault::NoVerb => page.text(
            b"no verb is given (verify, explain, run, show, batch or help; see 'probewarden help')",
        ),
        Fault::UnknownVerb => quote(
            page,
            b"unknown verb '",
            words,
            b"' (verify, explain, run, show, batch or help; see 'probewarden help')",
        ),
        Fault::BatchAlone => page.text(
            b"batch takes no arguments: probewarden batch <requests >answers (see 'probewarden help batch')",
        ),
        Fault::ExtraWord => quote(
            page,
            b"'",
            words,
            b"' is a word too many (usage: probewarden help [VERB])",
        ),
        Fault::UnknownOption => quote(page, b"unknown option '", words, b"'"),
        Fault::NotForVerb => quote(page, b"option '", words, b"' is not one of this verb's"),
        Fault::Twice => quote(page, b"option '", words, b"' is given twice"),
        Fault::TwoKinds => quote(
            page,
            b"'",
            words,
            b"' is a second kind: give one of --raw, --hex and --elf",
        ),
        Fault::MissingValue => quote(page, b"option '", words, b"' needs a value after it"),
        Fault::UnwantedValue => quote(page, b"'", words, b"': this option takes no value"),
        Fault::NotANumber => quote(
            page,
            b"",
            words,
            b": not a number below 2^64, in decimal or in hexadecimal after 0x",
        ),
        Fault::EmptySection => page.text(b"--section needs a name that is not empty"),
        Fault::TwoFiles => quote(
            page,
            b"'",
            words,
            b"' is a second file: give one (after -- a name may start with a dash)",
        ),
        Fault::SectionNeedsElf => quote(
            page,
            b"--section ",
            words,
            b": only an ELF object has sections",
        ),
        Fault::TwoStdin => page.text(
            b"standard input cannot be both FILE and the record: only one of them may be -",
        ),
        Fault::NoFile => quote(
            page,
            b"",
            verb,
            b" needs FILE, the probe (- is standard input)",
        ),
        Fault::NoRecord => quote(
            page,
            b"",
            verb,
            b" needs --record N, the record's length in bytes (0 to 1024)",
        ),
        Fault::NoRecordFile => quote(
            page,
            b"",
            verb,
            b" needs --record-file F, the file with the record's bytes (- is standard input)",
        ),
    }
}

// The options of a verb.
fn write_options(page: &mut Page<'_>, verb: &[u8])
    ensures { Longer page.old page.new }
{
    let options: &[u8] = match topic_of(verb) {
        Some(Topic::Of(Verb::Verify | Verb::Explain)) => {
            b": --record N, --section NAME, --raw, --hex, --elf; see 'probewarden help "
        }
        Some(Topic::Of(Verb::Run)) => {
            b": --record-file F, --record-at P, --stack-at S, --budget B, --trace, \
            --section NAME, --raw, --hex, --elf; see 'probewarden help "
        }
        Some(_) => b": --section NAME, --raw, --hex, --elf; see 'probewarden help ",
        None => return,
    };
    quote(page, b" (options of ", verb, options);
    quote(page, b"", verb, b"')");
}

// One line on what is wrong. Of an option that may not stand there it names those that may.
pub fn complain(page: &mut Page<'_>, args: &[u8], mistake: Mistake<'_>)
    ensures { Longer page.old page.new }
{
    let verb = Words::new(args).take();
    page.text(b"probewarden: ");
    write_fault(page, mistake, verb);
    if matches!(mistake.fault, Fault::UnknownOption | Fault::NotForVerb) {
        write_options(page, verb);
    }
    page.letter(b'\n');
}
