// Words read as signed numbers.
#![tactic(auto, using(text::proofs::Pages::pages), unfolding(crate::specs::Signed::sign, crate::specs::Signed::magnitude, crate::specs::Signed::signed_text))]

ghost use Rattle.std.specs.Prelude.{◌≡◌};
ghost use Rattle.text.specs.Page.{Wrote};
ghost use Rattle.listing.specs.Signed as defined;

use text::page::Page;

// The character + or -.
pub fn sign(n: u64) -> u8
    ensures { result ≡ defined.sign n }
{
    if n < 1 << 63 { b'+' } else { b'-' }
}

pub fn magnitude(n: u64) -> u64
    ensures { result ≡ defined.magnitude n }
{
    if n < 1 << 63 { n } else { n.wrapping_neg() }
}

// Writes the sign, of which there is always one, and the magnitude.
pub fn write_signed(page: &mut Page, n: u64)
    ensures { Wrote page.old (defined.signed_text n) page.new }
{
    page.letter(sign(n));
    page.decimal(magnitude(n));
}
