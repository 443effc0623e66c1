// The help text: of the whole command, and of each verb with its options, the exit statuses and an example.
ghost use Rattle.text.specs.Page.{Longer};

use crate::{Topic, Verb};
use text::page::Page;

// What a verb does, and the options that are its own.
fn usage_of(verb: Verb) -> &'static [u8] {
    match verb {
        Verb::Verify => {
            b"usage: probewarden verify FILE --record N [OPTION..]\n\
            Says whether a probe is safe to run on every record of N bytes.\n\
            \n\
            options\n\
            \x20 --record N       the record's length in bytes, 0 to 1024\n"
        }
        Verb::Explain => {
            b"usage: probewarden explain FILE --record N [OPTION..]\n\
            Verifies a probe, and lists each instruction with what is known of its registers\n\
            and why it is refused, if it is.\n\
            \n\
            options\n\
            \x20 --record N       the record's length in bytes, 0 to 1024\n"
        }
        Verb::Run => {
            b"usage: probewarden run FILE --record-file F [OPTION..]\n\
            Runs a probe on one record, whether it was verified or not.\n\
            \n\
            options\n\
            \x20 --record-file F  the file with the record's bytes, at most 1024 (- is standard input)\n\
            \x20 --record-at P    the record's address, 0x100000 if not given\n\
            \x20 --stack-at S     the stack's address, 0x200000 if not given\n\
            \x20 --budget B       the number of steps after which the run ends, 4096 if not given\n\
            \x20 --trace          list each step\n"
        }
        Verb::Show => {
            b"usage: probewarden show FILE [OPTION..]\n\
            Lists a probe's instructions.\n\
            \n\
            options\n"
        }
    }
}

// What all verbs that read a probe say of it.
const OPTIONS: &[u8] = b"  --section NAME   the section of an ELF object that holds the probe\n\
    \x20 --raw            FILE is the probe's bytes\n\
    \x20 --hex            FILE is hexadecimal text, # starts a comment\n\
    \x20 --elf            FILE is an ELF object for BPF\n\
    \n\
    Without one of the last three, FILE itself tells. FILE - is standard input.\n\
    Options stand before or after FILE, --record N is also --record=N, and after\n\
    -- a name may start with a dash. Numbers are decimal, or hexadecimal after 0x.\n";

// The exit statuses, with an example behind them.
const STATUSES: &[u8] = b"\n\
    exit status\n\
    \x20 0  yes, or it ran\n\
    \x20 1  refused, or it faulted\n\
    \x20 2  bad usage or unreadable input\n\
    \n\
    example\n\
    \x20 ";

fn example_of(verb: Verb) -> &'static [u8] {
    match verb {
        Verb::Verify => b"probewarden verify probe.o --record 64\n",
        Verb::Explain => b"probewarden explain probe.o --record 64\n",
        Verb::Run => b"probewarden run probe.o --record-file record.bin --budget 1000\n",
        Verb::Show => b"probewarden show probe.hex --hex\n",
    }
}

const WHOLE: &[u8] = b"usage: probewarden VERB ..\n\
    \n\
    \x20 verify FILE --record N       is the probe safe on every record of N bytes?\n\
    \x20 explain FILE --record N      the same, with what is known at each instruction\n\
    \x20 run FILE --record-file F     run the probe on one record\n\
    \x20 show FILE                    list the probe's instructions\n\
    \x20 batch <requests >answers     answer many requests, one a line\n\
    \x20 help [VERB]                  this text, or a verb's options\n\
    \n\
    FILE is raw bytes, hexadecimal text or an ELF object for BPF; - is standard input.\n";

const BATCH: &[u8] = b"usage: probewarden batch <requests >answers\n\
    Answers requests from standard input, one a line, each by a line of its own.\n\
    \n\
    requests\n\
    \x20 verify R HEX                             the reason and its place, 0 0 for yes\n\
    \x20 run R P S BUDGET HEXPROGRAM HEXRECORD    the outcome of a run\n\
    \x20 kb OP WIDTH V/M V/M                      the known bits of an operation's result\n\
    Any other line is answered by error. P and S may be hexadecimal after 0x.\n\
    \n\
    example\n\
    \x20 echo 'verify 0 b7000000000000009500000000000000' | probewarden batch\n";

const HELP: &[u8] = b"usage: probewarden help [VERB]\n\
    Prints what the command does, or what a verb does and its options.\n\
    VERB is verify, explain, run, show, batch or help. VERB --help does the same.\n\
    \n\
    example\n\
    \x20 probewarden help verify\n";

// The help text on a topic. What finds no room is left out.
pub fn help(page: &mut Page<'_>, topic: Topic)
    ensures { Longer page.old page.new }
{
    match topic {
        Topic::Whole => {
            page.text(WHOLE);
            page.text(STATUSES);
            page.text(example_of(Verb::Verify));
        }
        Topic::Of(verb) => {
            page.text(usage_of(verb));
            page.text(OPTIONS);
            page.text(STATUSES);
            page.text(example_of(verb));
        }
        Topic::Batch => page.text(BATCH),
        Topic::Help => page.text(HELP),
    }
}
