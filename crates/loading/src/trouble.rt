// What is wrong with a file that holds no program, and what to do about it, in a line.
ghost use Rattle.std.specs.Prelude.{◌≤◌, length};
ghost use Rattle.text.specs.Page.{Longer};

use crate::LoadError;
use object::{ObjectError, name_of};
use text::dump::{DumpError, line_of};
use text::page::Page;

// A section by its name, or by its number where it has none, between two texts.
fn write_section(page: &mut Page<'_>, before: &[u8], file: &[u8], number: usize, after: &[u8])
    ensures { Longer page.old page.new }
{
    page.text(before);
    match name_of(file, number) {
        Some(name) => {
            page.letter(b'\'');
            page.text(name);
            page.letter(b'\'');
        }
        None => page.decimal(number as u64),
    }
    page.text(after);
}

fn write_object_error(page: &mut Page<'_>, file: &[u8], name: Option<&[u8]>, error: ObjectError)
    ensures { Longer page.old page.new }
{
    match error {
        ObjectError::NotElf => page.text(
            b"this is no ELF object, for it does not start with 7f 45 4c 46: leave out --elf and --section",
        ),
        ObjectError::Class(class) => page.number(
            b"this ELF object is of class ",
            u64::from(class),
            b", not of class 2, 64 bits: compile with clang -O2 -target bpf -c",
        ),
        ObjectError::Data(encoding) => page.number(
            b"this ELF object has data encoding ",
            u64::from(encoding),
            b", not 1, little-endian: compile with clang -O2 -target bpfel -c",
        ),
        ObjectError::Type(kind) => page.number(
            b"this ELF file is of type ",
            kind,
            b", not of type 1, a relocatable object: compile with -c and do not link",
        ),
        ObjectError::Machine(machine) => page.number(
            b"this ELF object is for machine ",
            machine,
            b", not for 247, BPF: compile with clang -O2 -target bpf -c",
        ),
        ObjectError::HeaderCut { length } => page.number(
            b"this ELF object is cut short: it has ",
            length as u64,
            b" bytes, and its header alone has 64",
        ),
        ObjectError::EntrySize(size) => page.number(
            b"its section headers have ",
            size,
            b" bytes each, not 64: the object is damaged",
        ),
        ObjectError::TableOutside { start, count } => {
            page.number(b"its ", count, b" section headers, at byte ");
            page.number(
                b"",
                start,
                b", do not lie in the file: it is cut short or damaged",
            );
        }
        ObjectError::NamesOutside => page.text(
            b"the names of its sections do not lie in the file: it is cut short or damaged",
        ),
        ObjectError::SectionOutside { number } => write_section(
            page,
            b"section ",
            file,
            number,
            b" does not lie in the file: it is cut short or damaged",
        ),
        ObjectError::NoCode => page.text(
            b"no section holds a program: all executable ones are empty",
        ),
        ObjectError::SeveralCodes { first, second } => {
            write_section(
                page,
                b"several sections hold programs, ",
                file,
                first,
                b" and ",
            );
            write_section(
                page,
                b"",
                file,
                second,
                b" among them: choose one with --section NAME",
            );
        }
        ObjectError::NoSuchName => {
            page.text(b"there is no section '");
            page.text(name.unwrap_or(b""));
            page.letter(b'\'');
        }
        ObjectError::NotCode { number } => write_section(
            page,
            b"section ",
            file,
            number,
            b" holds no program: it is not executable",
        ),
        ObjectError::EmptyCode { number } => write_section(
            page,
            b"section ",
            file,
            number,
            b" is empty",
        ),
        ObjectError::Relocated { number, by } => {
            write_section(
                page,
                b"section ",
                file,
                number,
                b" has relocations, in section ",
            );
            write_section(
                page,
                b"",
                file,
                by,
                b": a probe calls no function and uses no global variable and no table of constants",
            );
        }
    }
}

fn write_letter_error(page: &mut Page<'_>, file: &[u8], at: usize)
    ensures { Longer page.old page.new }
{
    match file.get(at) {
        Some(letter) => {
            page.number(b"line ", line_of(file, at), b": '");
            page.letter(*letter);
            page.text(
                b"' is no hexadecimal digit; a comment starts with #, and --raw reads bytes as they are",
            );
        }
        None => page.text(b"a character is no hexadecimal digit"),
    }
}

fn write_dump_error(page: &mut Page<'_>, file: &[u8], error: DumpError)
    ensures { Longer page.old page.new }
{
    match error {
        DumpError::BadLetter { at } => write_letter_error(page, file, at),
        DumpError::OddDigits => page.text(
            b"the number of hexadecimal digits is odd, and a byte has two",
        ),
        DumpError::TooLong => page.text(b"the text spells too many bytes"),
        DumpError::Empty => page.text(b"there are no hexadecimal digits in this text"),
    }
}

// One line for standard error on the file at `path`, of which a section was perhaps named.
pub fn complain(
    page: &mut Page<'_>,
    path: &[u8],
    file: &[u8],
    name: Option<&[u8]>,
    error: LoadError,
)
    ensures { Longer page.old page.new }
{
    page.text(b"probewarden: ");
    page.text(path);
    page.text(b": ");
    match error {
        LoadError::Object(error) => write_object_error(page, file, name, error),
        LoadError::Dump(error) => write_dump_error(page, file, error),
        LoadError::Nothing => page.text(b"the file is empty"),
    }
    page.letter(b'\n');
}
