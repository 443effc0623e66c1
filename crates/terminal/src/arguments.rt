// The arguments as one slice, a 0 behind each, as `orders` reads them; and what is said of words that are no order.
ghost use Rattle.std.specs.Prelude.{◌≤◌, length, IfOk, IfSome};

use crate::ending::{finish, stop};
use crate::host::Terminal;
use orders::{Mistake, Topic};
use std::env::FillError;
use text::page::Page;

// Argument i, and a 0 after it, behind what is there up to `at`; answers the index after them.
fn take_argument(
    rt: &impl Terminal,
    args: &mut [u8],
    at: usize,
    i: usize,
) -> Result<usize, FillError>
    requires { at ≤ length args.old }
    ensures { IfOk result (λ next. next ≤ length args.old) }
{
    let room = args.len() - at;
    let n = rt.arg(i, &mut args[at..])?;
    if room <= n {
        return Err(FillError::TooLong);
    }
    args[at + n] = 0;
    Ok(at + n + 1)
}

// The arguments, where they leave room in the memory for them.
pub fn take_arguments<'a>(rt: &impl Terminal, args: &'a mut [u8]) -> Option<&'a [u8]>
    ensures { IfSome result (λ taken. length taken.now ≤ length args.old) }
{
    let mut at = 0;
    for i in 1..usize::MAX {
        match take_argument(rt, args, at, i) {
            Ok(next) => at = next,
            Err(FillError::NotPresent) => break,
            Err(FillError::TooLong) => return None,
        }
    }
    if at < args.len() {
        Some(&args[..at])
    } else {
        None
    }
}

pub fn refuse_arguments(rt: &impl Terminal) {
    stop(rt, b"probewarden: the arguments are too long\n");
}

pub fn help_on(rt: &impl Terminal, topic: Topic, out: &mut [u8]) {
    let mut page = Page::new(out);
    orders::help(&mut page, topic);
    finish(rt, page.written(), b'0');
}

pub fn refuse_words(rt: &impl Terminal, args: &[u8], mistake: Mistake<'_>, out: &mut [u8]) {
    let mut page = Page::new(out);
    orders::complain(&mut page, args, mistake);
    stop(rt, page.written());
}
