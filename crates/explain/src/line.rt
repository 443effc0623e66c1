// An index of a program, with what is known there: the listing's line, and notes under it.
// Of scratch memory in which nothing waits, nothing is told.
ghost use Rattle.std.specs.Prelude.{◌≡◌};
ghost use Rattle.analysis.specs.Judged.{on_values};
ghost use Rattle.listing.specs.Announced.{Announced};
ghost use Rattle.text.specs.Page.{Longer};

use crate::effect::write_effect;
use crate::joins::joined;
use crate::note::{start_note, write_note};
use crate::place::{Annotated, Place};
use crate::refusal::write_refusal;
use crate::registers::write_reads;
use analysis::{Finding, Reason};
use listing::line::{end_line, write_line};
use text::page::{Page, fill};

// The values are followed after the tests on form.
#[tactic(auto, unfolding(analysis::specs::Judged::on_values))]
fn is_of_values(reason: Reason) -> bool
    ensures { result ≡ on_values reason }
{
    match reason {
        Reason::ReadsUnset | Reason::Outside | Reason::LeaksAddress => true,
        Reason::BadLength
        | Reason::LongRecord
        | Reason::NoCode
        | Reason::WritesR10
        | Reason::JumpsBack
        | Reason::JumpsOut
        | Reason::DeadCode => false,
    }
}

// How far the analysis came with an index.
#[derive(Clone, Copy)]
enum Standing {
    NotFollowed,
    NotLookedAt,
    NotReached,
    Reached,
}

fn standing_of(place: Place) -> Standing {
    match place.annotated.finding {
        Finding::Refused { reason, .. } if !is_of_values(reason) => Standing::NotFollowed,
        Finding::Refused { place: last, .. } if last < place.index as u64 => Standing::NotLookedAt,
        _ if place.known(10).is_some() => Standing::Reached,
        _ => Standing::NotReached,
    }
}

// Under the line: what is known there, or why nothing is.
fn write_standing(page: &mut Page, place: Place, standing: Standing)
    ensures { Longer page.old page.new }
{
    match standing {
        Standing::NotFollowed => {}
        Standing::NotLookedAt => write_note(page, b"not looked at"),
        Standing::NotReached => write_note(page, b"not reached"),
        Standing::Reached => {
            start_note(page);
            write_reads(page, place);
            if let Some(effect) = place.effect() {
                write_effect(page, effect);
            }
        }
    }
}

// The line, what stands above it where ways come together, and what stands under it.
fn write_index(page: &mut Page, place: Place, ways: &[u8])
    ensures { Longer page.old page.new }
{
    let standing = standing_of(place);
    if matches!(standing, Standing::Reached) && joined(ways, place.index) {
        page.text(b"         \t; joined\n");
    }
    write_line(page, place.annotated.program, place.index);
    write_standing(page, place, standing);
    if let Finding::Refused { reason, place: at } = place.annotated.finding {
        if at == place.index as u64 {
            write_refusal(page, place, reason);
        }
    }
}

// Index i at the start of `out`, in several lines; the answer is their length. `ways` is what `note_ways` noted.
pub fn explain_line(annotated: Annotated, ways: &[u8], i: usize, out: &mut [u8]) -> usize
    ensures { Announced out.new result }
{
    let place = Place {
        annotated,
        index: i,
    };
    let at = fill(out, |page| write_index(page, place, ways));
    end_line(out, at)
}
