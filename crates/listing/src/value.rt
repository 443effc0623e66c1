// What is known of a value, as text.
#![tactic(auto, using(text::proofs::Pages::pages), unfolding(crate::specs::ValueText::end_text, crate::specs::ValueText::signed_end_text, crate::specs::ValueText::signed_range_text, crate::specs::ValueText::is_everything, crate::specs::ValueText::aside_text, crate::specs::ValueText::range_text, crate::specs::ValueText::left_open, crate::specs::ValueText::bits_text, crate::specs::ValueText::number_text, crate::specs::ValueText::offset_text, crate::specs::ValueText::back_text, crate::specs::ValueText::inside_text, crate::specs::ValueText::stack_text, crate::specs::ValueText::address_text, crate::specs::ValueText::gone_text, crate::specs::ValueText::value_text))]

ghost use Rattle.std.specs.Prelude.{◌≡◌, ◌++◌, ◌≤◌};
ghost use Rattle.text.specs.Buffer.{chars, hexadecimal};
ghost use Rattle.text.specs.Page.{Wrote};
ghost use Rattle.listing.specs.ValueText.{end_text, signed_end_text, signed_range_text, is_everything, aside_text, range_text, bits_text, number_text, offset_text, back_text, inside_text, stack_text, address_text, gone_text, value_text};

use crate::sign::write_signed;
use analysis::{Gone, Region, Value};
use bit_calculator::masks::up_to;
use known_bits::Bits;
use number::{Number, Range};
use text::page::Page;

fn write_end(page: &mut Page, range: Range)
    ensures { Wrote page.old (end_text range.lo range.hi) page.new }
{
    if range.lo != range.hi {
        page.text(b"..");
        page.decimal(range.hi);
    }
}

fn write_signed_end(page: &mut Page, range: Range)
    ensures { Wrote page.old (signed_end_text range.lo range.hi) page.new }
{
    if range.lo == range.hi {
        return;
    }
    page.text(b"..");
    if range.lo < 1 << 63 {
        page.decimal(range.hi);
    } else {
        write_signed(page, range.hi);
    }
}

fn write_signed_range(page: &mut Page, range: Range)
    ensures { Wrote page.old (signed_range_text range.lo range.hi) page.new }
{
    write_signed(page, range.lo);
    write_signed_end(page, range);
}

fn is_everything(range: Range) -> bool
    ensures { result ≡ is_everything range.lo range.hi }
{
    range.lo == 0 && range.hi == u64::MAX
}

fn write_aside(page: &mut Page, range: Range)
    ensures { Wrote page.old (aside_text range.lo range.hi) page.new }
{
    if range.lo >= 1 << 63 {
        page.text(b" (");
        write_signed_range(page, range);
        page.text(b")");
    }
}

fn write_range(page: &mut Page, range: Range)
    ensures { Wrote page.old (range_text range.lo range.hi) page.new }
{
    if is_everything(range) {
        return page.text(b"any number");
    }
    page.decimal(range.lo);
    write_end(page, range);
    write_aside(page, range);
}

fn write_value_and_mask(page: &mut Page, bits: Bits)
    ensures { Wrote page.old (chars " bits " ++ hexadecimal bits.value ++ chars "/" ++ hexadecimal bits.mask) page.new }
{
    page.text(b" bits ");
    page.hexadecimal(bits.value);
    page.text(b"/");
    page.hexadecimal(bits.mask);
}

fn write_bits(page: &mut Page, bits: Bits, range: Range)
    ensures { Wrote page.old (bits_text bits.value bits.mask range.lo range.hi) page.new }
{
    let left_open = up_to(range.lo ^ range.hi);
    if bits.mask & left_open != left_open {
        write_value_and_mask(page, bits);
    }
}

pub fn write_number(page: &mut Page, n: Number)
    ensures { Wrote page.old (number_text n) page.new }
{
    write_range(page, n.range);
    write_bits(page, n.bits, n.range);
}

fn write_offset(page: &mut Page, range: Range)
    ensures { Wrote page.old (offset_text range.lo range.hi) page.new }
{
    if is_everything(range) {
        return page.text(b"+any");
    }
    write_signed_range(page, range);
}

fn write_back(page: &mut Page, k: u64)
    requires { k ≤ 512 }
    ensures { Wrote page.old (back_text k) page.new }
{
    page.text(b"-");
    page.decimal(512 - k);
}

fn write_inside(page: &mut Page, range: Range)
    requires { (range.lo ≤ 512) × (range.hi ≤ 512) }
    ensures { Wrote page.old (inside_text range.lo range.hi) page.new }
{
    if range.lo != range.hi {
        write_back(page, range.lo);
        page.text(b"..");
        return write_back(page, range.hi);
    }
    if range.lo != 512 {
        write_back(page, range.lo);
    }
}

fn write_stack(page: &mut Page, range: Range)
    ensures { Wrote page.old (stack_text range.lo range.hi) page.new }
{
    if range.lo <= 512 && range.hi <= 512 {
        return write_inside(page, range);
    }
    page.text(b" start");
    write_offset(page, range);
}

pub fn write_address(page: &mut Page, region: Region, range: Range)
    ensures { Wrote page.old (address_text region range.lo range.hi) page.new }
{
    match region {
        Region::Record => {
            page.text(b"record");
            write_offset(page, range);
        }
        Region::Stack => {
            page.text(b"stack");
            write_stack(page, range);
        }
    }
}

fn write_gone(page: &mut Page, gone: Gone)
    ensures { Wrote page.old (gone_text gone) page.new }
{
    match gone {
        Gone::Never => page.text(b"unset"),
        Gone::Mixed => page.text(b"mixed"),
    }
}

pub fn write_value(page: &mut Page, value: Value)
    ensures { Wrote page.old (value_text value) page.new }
{
    match value {
        Value::Unusable(gone) => write_gone(page, gone),
        Value::Plain(n) => write_number(page, n),
        Value::Address(region, n) => write_address(page, region, n.range),
    }
}
