// A 64-bit little-endian relocatable ELF object for BPF, and where the bytes of its program lie.
// The definitions that the contracts cite are in `specs/`.
#![tactic(auto)]

ghost use Rattle.std.specs.Prelude.{true, ◌≡◌, IfOk, IfSome};
ghost use Rattle.text.specs.Part.{Part};
ghost use Rattle.object.specs.Object.{Code, executable};

use names::{find_name_table, next_named, short_name};
use table::{Header, Headers, read_headers};

mod field;
mod names;
mod table;

// Where the bytes of a section lie in the file.
#[derive(Clone, Copy, Debug, PartialEq, Eq)]
pub struct Section {
    pub start: usize,
    pub length: usize,
}

// Why a file holds no program: each case has what was found in place of what is meant.
#[derive(Clone, Copy, Debug, PartialEq, Eq)]
pub enum ObjectError {
    NotElf,
    Class(u8),
    Data(u8),
    Type(u64),
    Machine(u64),
    HeaderCut { length: usize },
    EntrySize(u64),
    TableOutside { start: u64, count: u64 },
    NamesOutside,
    SectionOutside { number: usize },
    NoCode,
    SeveralCodes { first: usize, second: usize },
    NoSuchName,
    NotCode { number: usize },
    EmptyCode { number: usize },
    Relocated { number: usize, by: usize },
}

pub fn is_elf(file: &[u8]) -> bool {
    file.starts_with(b"\x7fELF")
}

// The bytes of an executable section, where they lie in the file and no relocation changes them.
fn code_at(headers: &Headers<'_>, header: &Header<'_>) -> Result<Section, ObjectError>
    requires { executable header.now.file.now header.now.at ≡ true }
    ensures { IfOk result (λ s. Code header.now.file.now s.start s.length) }
{
    let number = header.number;
    if header.size() == 0 {
        return Err(ObjectError::EmptyCode { number });
    }
    let section = header
        .section()
        .ok_or(ObjectError::SectionOutside { number })?;
    if let Some(by) = headers.find_relocation(number) {
        return Err(ObjectError::Relocated { number, by });
    }
    Ok(section)
}

fn only_code(headers: &Headers<'_>) -> Result<Section, ObjectError>
    ensures { IfOk result (λ s. Code headers.now.file.now s.start s.length) }
{
    let first = headers.next_code(0).ok_or(ObjectError::NoCode)?;
    if let Some(second) = headers.next_code(first.number + 1) {
        return Err(ObjectError::SeveralCodes {
            first: first.number,
            second: second.number,
        });
    }
    code_at(headers, &first)
}

// The only executable section that is not empty: clang leaves an empty one beside the program's.
pub fn find_code(file: &[u8]) -> Result<Section, ObjectError>
    ensures { IfOk result (λ s. Code file.now s.start s.length) }
{
    only_code(&read_headers(file)?)
}

fn named_code(headers: &Headers<'_>, name: &[u8]) -> Result<Section, ObjectError>
    ensures { IfOk result (λ s. Code headers.now.file.now s.start s.length) }
{
    let names = find_name_table(headers).ok_or(ObjectError::NamesOutside)?;
    let header = next_named(headers, names, name).ok_or(ObjectError::NoSuchName)?;
    if !header.is_executable() {
        return Err(ObjectError::NotCode {
            number: header.number,
        });
    }
    code_at(headers, &header)
}

// The first section with this name.
pub fn find_named(file: &[u8], name: &[u8]) -> Result<Section, ObjectError>
    ensures { IfOk result (λ s. Code file.now s.start s.length) }
{
    named_code(&read_headers(file)?, name)
}

// A section's name, for messages: its first 64 characters.
pub fn name_of(file: &[u8], number: usize) -> Option<&[u8]>
    ensures { IfSome result (λ name. Part file.now name.now) }
{
    short_name(&read_headers(file).ok()?, number)
}
