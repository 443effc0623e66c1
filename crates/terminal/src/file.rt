// The bytes of a file, or of standard input; what is wrong is said on standard error.
ghost use Rattle.std.specs.Prelude.{◌≤◌, length, IfOk, IfSome};

use crate::ending::{complain, tell_why};
use crate::host::Terminal;
use std::fs::File;
use std::io;
use std::io::{ErrorKind, Read};
use std::str::from_utf8;
use text::page::Page;

// Says why the file at `path` cannot be read, as the system names it.
fn cannot_read(rt: &impl Terminal, path: &[u8], error: io::Error, out: &mut [u8]) {
    let mut page = Page::new(out);
    page.text(b"probewarden: cannot read ");
    page.text(path);
    tell_why(rt, page.written(), error);
}

fn too_long(rt: &impl Terminal, path: &[u8], room: usize, out: &mut [u8]) {
    let mut page = Page::new(out);
    page.text(b"probewarden: ");
    page.text(path);
    page.number(
        b": the file has ",
        room as u64,
        b" bytes or more, which is too long\n",
    );
    complain(rt, page.written());
}

// Reads until the buffer is full or the input ends, and answers how many bytes came. Only a first read that fails is an error.
fn read_full<I: Read>(input: &mut I, file: &mut [u8]) -> io::Result<usize>
    ensures { IfOk result (λ n. n ≤ length file.old) }
{
    let mut done = input.read(file)?;
    while done > 0 && done < file.len() {
        match input.read(&mut file[done..]) {
            Ok(n) if n > 0 => done += n,
            _ => break,
        }
    }
    Ok(done)
}

// The bytes of the input at the start of `file`. Where they fill it, the input may go on, and is too long.
fn read_from<'a, R: Terminal, I: Read>(
    rt: &R,
    input: &mut I,
    path: &[u8],
    file: &'a mut [u8],
    out: &mut [u8],
) -> Option<&'a [u8]>
    ensures { IfSome result (λ bytes. length bytes.now ≤ length file.old) }
{
    match read_full(input, file) {
        Ok(n) if n < file.len() => Some(&file[..n]),
        Ok(n) => {
            too_long(rt, path, n, out);
            None
        }
        Err(error) => {
            cannot_read(rt, path, error, out);
            None
        }
    }
}

// Opens the file at `path`. A path is text, as std has it.
fn open<R: Terminal>(rt: &R, path: &[u8]) -> io::Result<R::File> {
    match from_utf8(path) {
        Ok(name) => File::open(rt, name),
        Err(_) => Err(io::Error::new(ErrorKind::InvalidInput, "the path is not UTF-8")),
    }
}

// The bytes of the file at `path`, or of standard input where the path is a dash, at the start of `file`. If they cannot be read or are too
// many, that has been said.
pub fn read_file<'a, R: Terminal>(
    rt: &R,
    path: &[u8],
    file: &'a mut [u8],
    out: &mut [u8],
) -> Option<&'a [u8]>
    ensures { IfSome result (λ bytes. length bytes.now ≤ length file.old) }
{
    if matches!(path, b"-") {
        let mut input = rt.reader();
        return read_from(rt, &mut input, b"standard input", file, out);
    }
    match open(rt, path) {
        Ok(mut input) => read_from(rt, &mut input, path, file, out),
        Err(error) => {
            cannot_read(rt, path, error, out);
            None
        }
    }
}
