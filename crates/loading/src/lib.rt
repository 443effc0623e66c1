// The bytes of a program in a file: raw bytes, hexadecimal text, or the section of an ELF object; and what is wrong with a file, in a line.
// All on slices, with no input or output.
#![tactic(auto)]

ghost use Rattle.std.specs.Prelude.{◌≤◌, length, IfOk};
ghost use Rattle.object.specs.Object.{Code};
ghost use Rattle.loading.specs.Loaded.{Lies};

use object::{ObjectError, Section, find_code, find_named, is_elf};
use text::dump::{DumpError, read_dump};

mod trouble;

pub use trouble::complain;

// What a file holds.
#[derive(Clone, Copy, Debug, PartialEq, Eq)]
pub enum Kind {
    Raw,
    Hex,
    Elf,
}

// Where the program's bytes are: in the file, or at the start of the buffer for spelled ones.
#[derive(Clone, Copy, Debug, PartialEq, Eq)]
pub enum Place {
    InFile { start: usize, end: usize },
    Spelled { length: usize },
}

// Why a file holds no program.
#[derive(Clone, Copy, Debug, PartialEq, Eq)]
pub enum LoadError {
    Object(ObjectError),
    Dump(DumpError),
    Nothing,
}

impl From<ObjectError> for LoadError {
    fn from(error: ObjectError) -> LoadError {
        LoadError::Object(error)
    }
}

impl From<DumpError> for LoadError {
    fn from(error: DumpError) -> LoadError {
        LoadError::Dump(error)
    }
}

fn find_section(file: &[u8], name: Option<&[u8]>) -> Result<Section, ObjectError>
    ensures { IfOk result (λ s. Code file.now s.start s.length) }
{
    match name {
        Some(name) => find_named(file, name),
        None => find_code(file),
    }
}

fn is_letter(b: u8) -> bool {
    matches!(b, b' '..=b'~' | b'\t' | b'\n' | b'\r')
}

// The kind that the bytes look like: instructions have others than a text's, such as the 0 of a field that is not used.
fn guess(file: &[u8]) -> Kind {
    if is_elf(file) {
        Kind::Elf
    } else if file.iter().all(|b| is_letter(*b)) {
        Kind::Hex
    } else {
        Kind::Raw
    }
}

// Where a section is named, the file is an object.
fn meant(file: &[u8], kind: Option<Kind>, name: Option<&[u8]>) -> Kind {
    match (kind, name) {
        (Some(kind), _) => kind,
        (None, Some(_)) => Kind::Elf,
        (None, None) => guess(file),
    }
}

// The program in a file of the kind, or of the kind that its bytes look like. `bare` is scratch memory for the digits of a text; it should
// be as long as the file.
pub fn load(
    file: &[u8],
    kind: Option<Kind>,
    name: Option<&[u8]>,
    bare: &mut [u8],
    program: &mut [u8],
) -> Result<Place, LoadError>
    ensures { IfOk result (Lies (length file.now) (length program.old)) }
{
    if file.is_empty() {
        return Err(LoadError::Nothing);
    }
    match meant(file, kind, name) {
        Kind::Elf => {
            let Section { start, length } = find_section(file, name)?;
            let end = start + length;
            Ok(Place::InFile { start, end })
        }
        Kind::Hex => {
            let length = read_dump(file, bare, program)?;
            Ok(Place::Spelled { length })
        }
        Kind::Raw => Ok(Place::InFile {
            start: 0,
            end: file.len(),
        }),
    }
}
