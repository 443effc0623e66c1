// The reading of a program out of a file in the shape of a C function, so that a test can lend it damaged files by the thousand in one process:
// crate `reading_c` gives it to C.
// Assumes nothing: whatever the bytes are, the answer is one of the codes below.
#![tactic(auto)]

ghost use Rattle.std.specs.Prelude.{◌≤◌, length};
ghost use Rattle.reading.specs.Told.{Told};

use loading::{LoadError, Place, load};
use object::ObjectError;
use text::dump::DumpError;

// Why nothing was done: there is no room for the answer.
// Kept: C reads this code and those below, as crate `reading_c` exports them.
const NO_ROOM: u64 = 99;

fn code_of_object(error: ObjectError) -> u64
    ensures { 2 ≤ result }
{
    match error {
        ObjectError::NotElf => 3,
        ObjectError::Class(_) => 4,
        ObjectError::Data(_) => 5,
        ObjectError::Type(_) => 6,
        ObjectError::Machine(_) => 7,
        ObjectError::HeaderCut { .. } => 8,
        ObjectError::EntrySize(_) => 9,
        ObjectError::TableOutside { .. } => 10,
        ObjectError::NamesOutside => 11,
        ObjectError::SectionOutside { .. } => 12,
        ObjectError::NoCode => 13,
        ObjectError::SeveralCodes { .. } => 14,
        ObjectError::NoSuchName => 15,
        ObjectError::NotCode { .. } => 16,
        ObjectError::EmptyCode { .. } => 17,
        ObjectError::Relocated { .. } => 18,
    }
}

fn code_of(error: LoadError) -> u64
    ensures { 2 ≤ result }
{
    match error {
        LoadError::Nothing => 2,
        LoadError::Object(error) => code_of_object(error),
        LoadError::Dump(DumpError::BadLetter { .. }) => 19,
        LoadError::Dump(DumpError::OddDigits) => 20,
        LoadError::Dump(DumpError::TooLong) => 21,
        LoadError::Dump(DumpError::Empty) => 22,
    }
}

// Code 0: the program is answer[1] bytes of the file from answer[0] on. Code 1: it is the first answer[0] bytes of `program`. Any other
// code is a kind of trouble, and the answer is as it was; 2 is an empty file, 99 an answer of fewer than two words. An empty name: none was
// given.
pub fn reading_load(
    file: &[u8],
    name: &[u8],
    bare: &mut [u8],
    program: &mut [u8],
    answer: &mut [u64],
) -> u64
    ensures { Told (length file.now) (length program.old) answer.old answer.new result }
{
    if answer.len() < 2 {
        return NO_ROOM;
    }
    let name = (!name.is_empty()).then_some(name);
    match load(file, None, name, bare, program) {
        Ok(Place::InFile { start, end }) => {
            answer[0] = start as u64;
            answer[1] = (end - start) as u64;
            0
        }
        Ok(Place::Spelled { length }) => {
            answer[0] = length as u64;
            1
        }
        Err(error) => code_of(error),
    }
}
