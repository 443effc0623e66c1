// The program that an order names: the file is read, the program found in it, and its bytes kept.
ghost use Rattle.std.specs.Prelude.{◌≤◌, length, IfSome};
ghost use Rattle.loading.specs.Loaded.{Lies};

use crate::ending::{status, stop};
use crate::file::read_file;
use crate::host::Terminal;
use crate::room::filled;
use loading::{Place, load};
use orders::Order;
use text::page::Page;

// A file of so many bytes or more is not read.
pub const LONGEST_FILE: usize = 524288;

// The bytes of a program that was found, at the start of `program`: one that was spelled stands there already.
fn keep<'a>(file: &[u8], place: Place, program: &'a mut [u8]) -> &'a [u8]
    requires { Lies (length file.now) (length program.old) place }
    ensures { length result.now ≤ length program.old }
{
    match place {
        Place::InFile { start, end } => {
            let n = (end - start).min(program.len());
            program[..n].copy_from_slice(&file[start..start + n]);
            &program[..n]
        }
        Place::Spelled { length } => &program[..length],
    }
}

// The program in the bytes of a file. If there is none, that is said.
fn find_program<'a>(
    rt: &impl Terminal,
    file: &[u8],
    order: &Order<'_>,
    bare: &mut [u8],
    program: &'a mut [u8],
    out: &mut [u8],
) -> Option<&'a [u8]>
    ensures { IfSome result (λ bytes. length bytes.now ≤ length program.old) }
{
    match load(file, order.kind, order.section, bare, program) {
        Ok(place) => Some(keep(file, place, program)),
        Err(error) => {
            let mut page = Page::new(out);
            loading::complain(&mut page, order.file, file, order.section, error);
            stop(rt, page.written());
            None
        }
    }
}

// The program's bytes, at the start of `program`. If there is none, that has been said, with the status.
pub fn fetch_program<'a>(
    rt: &impl Terminal,
    order: &Order<'_>,
    program: &'a mut [u8],
    out: &mut [u8],
) -> Option<&'a [u8]>
    ensures { IfSome result (λ bytes. length bytes.now ≤ length program.old) }
{
    let mut file = filled::<u8, LONGEST_FILE>(0);
    let mut bare = filled::<u8, LONGEST_FILE>(0);
    match read_file(rt, order.file, &mut file, out) {
        Some(file) => find_program(rt, file, order, &mut bare, program, out),
        None => {
            status(rt, b'2');
            None
        }
    }
}
