// The names of sections: each is the text up to a 0 byte, inside of one section that holds them all.
ghost use Rattle.std.specs.Prelude.{◌≡◌, IfSome};
ghost use Rattle.text.specs.Part.{Part};
ghost use Rattle.object.specs.Object.{Names};

use crate::field::half;
use crate::table::{Header, Headers};

// Of a name in a message 64 characters are enough.
const ENOUGH: usize = 64;

// The bytes that hold the names: those of the section whose number the ELF header has.
#[tactic(auto, using(text::proofs::Parts::part_from_range))]
pub fn find_name_table<'a>(headers: &Headers<'a>) -> Option<&'a [u8]>
    ensures part { IfSome result (λ names. Part headers.now.file.now names.now) }
    ensures table { IfSome result (λ names. Names headers.now.file.now names.now) }
{
    let header = headers.header(half(headers.file, 62) as usize)?;
    let table = header.section()?;
    Some(&headers.file[table.start..table.start + table.length])
}

// The name of a section, where it lies in the table of names.
#[tactic(auto, using(text::proofs::Parts::part_from_drop, text::proofs::Parts::part_take))]
fn read_name<'a>(header: &Header<'a>, names: &'a [u8]) -> Option<&'a [u8]>
    ensures { IfSome result (λ name. Part names.now name.now) }
{
    let rest = names.get(header.name_offset()..)?;
    let end = rest.iter().position(|b| *b == 0)?;
    Some(&rest[..end])
}

// The first section with this name.
pub fn next_named<'a>(headers: &Headers<'a>, names: &[u8], name: &[u8]) -> Option<Header<'a>>
    ensures { IfSome result (λ header. header.file.now ≡ headers.now.file.now) }
{
    for number in 0..headers.count {
        let header = headers.header(number)?;
        if read_name(&header, names) == Some(name) {
            return Some(header);
        }
    }
    None
}

// The first characters of a section's name.
#[tactic(auto, using(text::proofs::Parts::take_of_part))]
pub fn short_name<'a>(headers: &Headers<'a>, number: usize) -> Option<&'a [u8]>
    ensures { IfSome result (λ name. Part headers.now.file.now name.now) }
{
    let header = headers.header(number)?;
    let name = read_name(&header, find_name_table(headers)?)?;
    Some(&name[..name.len().min(ENOUGH)])
}
