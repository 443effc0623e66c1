// How a start ends: a line on standard output or standard error, and the status.
use crate::host::Terminal;
use std::fs::OpenOptions;
use std::io::Write;
use std::os::unix::fs::PermissionsExt;
use std::{fs, io};

// Descriptor 3, as the system names it.
const STATUS: &str = "/proc/self/fd/3";

// The name has the rights that the descriptor was opened with: one that is only read is left as it is.
fn is_written(rt: &impl Terminal) -> io::Result<bool> {
    let rights = fs::symlink_metadata(rt, STATUS)?.permissions();
    Ok(rights.mode() & 0o200 != 0)
}

// Opened for both, a pipe that nobody reads any more keeps nobody waiting. A file may be open for writing to who may not read it.
fn open_status<R: Terminal>(rt: &R) -> io::Result<R::File> {
    match OpenOptions::new().read(true).append(true).open(rt, STATUS) {
        Ok(file) => Ok(file),
        Err(_) => OpenOptions::new().append(true).open(rt, STATUS),
    }
}

fn write_status(rt: &impl Terminal, d: u8) -> io::Result<()> {
    if is_written(rt)? {
        let mut file = open_status(rt)?;
        file.write_all(&[d])?;
    }
    Ok(())
}

// Writes the status on descriptor 3. Where that is not open for writing, nobody asks for it.
// Kept: a digit and no enum, since descriptor 3 has it so, and `status_zero` of `reports` is a theorem about it.
pub fn status(rt: &impl Terminal, d: u8) {
    let _ = write_status(rt, d);
}

// Says a text on standard output.
pub fn say(rt: &impl Terminal, text: &[u8]) -> io::Result<()> {
    rt.write_all(text)
}

// Says a text on standard error.
pub fn complain(rt: &impl Terminal, text: &[u8]) {
    let _ = rt.warn(text);
}

// Ends with a line on standard error.
pub fn stop(rt: &impl Terminal, line: &[u8]) {
    complain(rt, line);
    status(rt, b'2');
}

// The system's words alone, without the number that std puts behind them.
fn words_of(text: &str) -> &str {
    match text.split_once(" (os error ") {
        Some((words, _)) => words,
        None => text,
    }
}

fn warn_why<R: Terminal>(rt: &R, error: io::Error) -> io::Result<()> {
    let text = format!(in rt.alloc(); "{error}")?;
    rt.warn(words_of(text.as_str()).as_bytes())
}

// Writes a line to standard error: what failed, and why, as the system names it.
pub fn tell_why(rt: &impl Terminal, what: &[u8], error: io::Error) {
    let _ = rt.warn(what);
    let _ = rt.warn(b": ");
    let _ = warn_why(rt, error);
    let _ = rt.warn(b"\n");
}

// Ends because what was to be said could not be written.
pub fn fail(rt: &impl Terminal, error: io::Error) {
    tell_why(rt, b"probewarden: standard output", error);
    status(rt, b'2');
}

// Ends with a line on standard output, whose status is `d` if it could be written.
pub fn finish(rt: &impl Terminal, line: &[u8], d: u8) {
    match say(rt, line) {
        Ok(()) => status(rt, d),
        Err(error) => fail(rt, error),
    }
}
