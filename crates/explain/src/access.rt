// A load or store that is refused: which bytes it might touch, and what would help.
ghost use Rattle.std.specs.Prelude.{◌≤◌};
ghost use Rattle.text.specs.Page.{Longer};

use crate::note::{write_count, write_note};
use crate::place::Place;
use analysis::{Region, Value};
use calculator::operation::alu;
use calculator::sharpen::exactly;
use listing::value::write_value;
use machine::instruction::Instruction;
use machine::memory::byte_count;
use number::{Number, Range};
use text::page::Page;
use word::Operation;
use word::width::W64;

// How far the bytes reach, where the last offset is no negative number, and how many bytes there are.
fn write_limit(page: &mut Page, place: Place, region: Region, hi: u64, count: u64)
    requires { count ≤ 8 }
    ensures { Longer page.old page.new }
{
    if hi < 1 << 63 {
        page.number(b", up to byte ", hi + count, b"");
    }
    match region {
        Region::Record => page.number(b"; the record has ", place.annotated.record_len, b""),
        Region::Stack => page.text(b"; the stack has 512"),
    }
}

// An index that may reach as far was not tested, or only its low half was.
fn remedy(offset: Range) -> &'static [u8] {
    if offset.lo == offset.hi {
        b"help: use an offset that lies inside"
    } else if offset.hi >= 1 << 32 {
        b"help: test all 64 bits of the index first, or mask it"
    } else {
        b"help: test the index first, or mask it"
    }
}

// A load or a store of `count` bytes at `off` behind an address.
#[derive(Clone, Copy)]
struct Access {
    count: u64,
    off: u64,
    ghost few: { count ≤ 8 },
}

impl Access {
    // The bytes at any of the offsets that the analysis tests: what is known of the base, and off added.
    #[tactic(auto, using(text::proofs::Pages::longer_wrote))]
    fn write_bytes(self, page: &mut Page, place: Place, verb: &[u8], region: Region, base: Number)
        ensures { Longer page.old page.new }
    {
        let offset = alu::<W64>(Operation::Add, base, exactly(self.off));
        write_note(page, verb);
        write_count(page, self.count);
        page.text(b" at ");
        write_value(page, Value::Address(region, offset));
        write_limit(page, place, region, offset.range.hi, self.count);
        write_note(page, remedy(offset.range));
    }

    fn write_load(self, page: &mut Page, place: Place, base: Value)
        ensures { Longer page.old page.new }
    {
        match base {
            Value::Unusable(_) => {}
            Value::Plain(n) => write_no_address(page, b"reads through a number (", n),
            Value::Address(region, n) => self.write_bytes(page, place, b"reads ", region, n),
        }
    }

    fn write_store(self, page: &mut Page, place: Place, base: Value)
        ensures { Longer page.old page.new }
    {
        match base {
            Value::Unusable(_) => {}
            Value::Plain(n) => write_no_address(page, b"writes through a number (", n),
            Value::Address(Region::Record, _) => {
                write_note(page, b"writes into the record, which is read-only");
                write_note(page, b"help: write to the stack, below r10");
            }
            Value::Address(Region::Stack, n) => {
                self.write_bytes(page, place, b"writes ", Region::Stack, n);
            }
        }
    }
}

#[tactic(auto, using(text::proofs::Pages::longer_wrote))]
fn write_no_address(page: &mut Page, verb: &[u8], n: Number)
    ensures { Longer page.old page.new }
{
    write_note(page, verb);
    write_value(page, Value::Plain(n));
    page.text(b"), which is no address");
    write_note(
        page,
        b"help: start from r1, the record, or from r10, the stack",
    );
}

// Nothing is told where no path comes.
pub fn write_access(page: &mut Page, place: Place)
    ensures { Longer page.old page.new }
{
    match place.instruction() {
        Instruction::Load { size, src, off, .. } => {
            let count = byte_count(size) as u64;
            if let Some(base) = place.known(src) {
                Access { count, off }.write_load(page, place, base);
            }
        }
        Instruction::Store { size, dst, off, .. } => {
            let count = byte_count(size) as u64;
            if let Some(base) = place.known(dst) {
                Access { count, off }.write_store(page, place, base);
            }
        }
        _ => {}
    }
}
