// The ELF header, and the section headers that it names.
ghost use Rattle.std.specs.Prelude.{true, ◌≡◌, ◌+◌, ◌*◌, ◌≤◌, ◌<◌, length, IfOk, IfSome, IfNone};
ghost use Rattle.object.specs.Object.{Listed, Lies, executable, coded, word16, word64};

use crate::field::{half, long, word};
use crate::{ObjectError, Section, is_elf};

// The section headers of an object: `count` of 64 bytes each from `start` on, all of them inside of the file.
#[derive(Clone, Copy)]
pub struct Headers<'a> {
    pub file: &'a [u8],
    pub start: usize,
    pub count: usize,
    ghost listed: { Listed file.now start count },
}

// The section headers of a file whose header is whole and of the right kind.
fn locate(file: &[u8]) -> Result<Headers<'_>, ObjectError>
    requires { 64 ≤ length file.now }
    ensures { IfOk result (λ headers. headers.file.now ≡ file.now) }
{
    let start = long(file, 40);
    let count = half(file, 60);
    let len = file.len() as u64;
    if start > len || count * 64 > len - start {
        return Err(ObjectError::TableOutside { start, count });
    }
    Ok(Headers {
        file,
        start: start as usize,
        count: count as usize,
    })
}

// The file's kind is told before its type, so that an object for another machine is named as such.
fn test_kind(file: &[u8]) -> Result<(), ObjectError>
    requires { 64 ≤ length file.now }
{
    let machine = half(file, 18);
    let kind = half(file, 16);
    let size = half(file, 58);
    if file[4] != 2 {
        Err(ObjectError::Class(file[4]))
    } else if file[5] != 1 {
        Err(ObjectError::Data(file[5]))
    } else if machine != 247 {
        Err(ObjectError::Machine(machine))
    } else if kind != 1 {
        Err(ObjectError::Type(kind))
    } else if size != 64 {
        Err(ObjectError::EntrySize(size))
    } else {
        Ok(())
    }
}

pub fn read_headers(file: &[u8]) -> Result<Headers<'_>, ObjectError>
    ensures { IfOk result (λ headers. headers.file.now ≡ file.now) }
{
    if !is_elf(file) {
        return Err(ObjectError::NotElf);
    }
    if file.len() < 64 {
        return Err(ObjectError::HeaderCut { length: file.len() });
    }
    test_kind(file)?;
    locate(file)
}

impl<'a> Headers<'a> {
    // The header of the section with this number.
    pub fn header(&self, number: usize) -> Option<Header<'a>>
        ensures file { IfSome result (λ header. header.file.now ≡ self.now.file.now) }
        ensures number { IfSome result (λ header. header.number ≡ number) }
        ensures none { IfNone result (self.now.count ≤ number) }
    {
        if number >= self.count {
            return None;
        }
        Some(Header {
            file: self.file,
            number,
            at: self.start + number * 64,
        })
    }

    // The first relocation section with entries for section `target`.
    pub fn find_relocation(&self, target: usize) -> Option<usize>
        ensures { IfSome result (λ number. number < self.now.count) }
    {
        (0..self.count).find(|number| {
            self.header(*number)
                .is_some_and(|header| header.relocates(target))
        })
    }

    // The first executable section from number `from` on that is not empty.
    #[tactic(auto, using(crate::proofs::Sections::coded_executable))]
    pub fn next_code(&self, from: usize) -> Option<Header<'a>>
        ensures order { IfSome result (λ header. from ≤ header.number) }
        ensures file { IfSome result (λ header. header.file.now ≡ self.now.file.now) }
        ensures code { IfSome result (λ header. executable header.file.now header.at ≡ true) }
    {
        for number in from..self.count {
            let header = self.header(number)?;
            if header.is_code() {
                return Some(header);
            }
        }
        None
    }
}

// The header of a section: the 64 bytes from `at` on, all of them inside of the file.
#[derive(Clone, Copy)]
pub struct Header<'a> {
    pub file: &'a [u8],
    pub number: usize,
    at: usize,
    ghost known: { number < word16 file.now 60 },
    ghost place: { at ≡ word64 file.now 40 + number * 64 },
    ghost inside: { at + 64 ≤ length file.now },
}

impl<'a> Header<'a> {
    // The section holds program bytes (type 1) that may be executed (flag 4).
    #[tactic(auto, unfolding(crate::specs::Object::executable))]
    pub fn is_executable(&self) -> bool
        ensures { result ≡ executable self.now.file.now self.now.at }
    {
        word(self.file, self.at + 4) == 1 && long(self.file, self.at + 8) / 4 % 2 == 1
    }

    // How many bytes the section has.
    pub fn size(&self) -> u64
        ensures { result ≡ word64 self.now.file.now (self.now.at + 32) }
    {
        long(self.file, self.at + 32)
    }

    // Where the name of the section starts in the table of names.
    pub fn name_offset(&self) -> usize {
        word(self.file, self.at) as usize
    }

    // Where the bytes of the section lie, if they lie in the file.
    pub fn section(&self) -> Option<Section>
        ensures { IfSome result (Lies self.now.file.now self.now.at) }
    {
        let start = long(self.file, self.at + 24);
        let length = self.size();
        let len = self.file.len() as u64;
        if start > len || length > len - start {
            return None;
        }
        Some(Section {
            start: start as usize,
            length: length as usize,
        })
    }

    // The section is of relocations (type 4 or 9), and has entries for section `target`.
    fn relocates(&self, target: usize) -> bool {
        let kind = word(self.file, self.at + 4);
        let info = word(self.file, self.at + 44) as usize;
        (kind == 4 || kind == 9) && info == target && self.size() != 0
    }

    // The section holds program bytes that may be executed, and is not empty.
    #[tactic(auto, unfolding(crate::specs::Object::coded))]
    fn is_code(&self) -> bool
        ensures { result ≡ coded self.now.file.now self.now.at }
    {
        self.is_executable() && self.size() > 0
    }
}
