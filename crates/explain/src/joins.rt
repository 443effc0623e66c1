// Where ways through a program come together: one pass over it notes how many ways lead to each index.
ghost use Rattle.std.specs.Prelude.{◌<◌};

use crate::place::{Annotated, Place};
use analysis::Effect;

// One more way from index j to i, which lies behind j. Of the number of ways only 0, 1 and more matter.
fn note(ways: &mut [u8], j: usize, i: u64) {
    if i <= j as u64 || ways.len() as u64 <= i {
        return;
    }
    let i = i as usize;
    ways[i] = if ways[i] == 0 { 1 } else { 2 };
}

// Only the ways that the analysis follows.
fn note_from(ways: &mut [u8], j: usize, effect: Effect)
    requires { j < 4096 }
{
    let next = j as u64 + 1;
    match effect {
        Effect::Put { .. } | Effect::Keep => note(ways, j, next),
        Effect::Fork {
            onward,
            taken,
            target,
            ..
        } => {
            if onward.is_some() {
                note(ways, j, next);
            }
            if taken.is_some() {
                note(ways, j, target);
            }
        }
        Effect::Goto { target } => note(ways, j, target),
        Effect::Refuse(_) | Effect::Stop => {}
    }
}

// Notes in `ways`, of which all are 0 before, how many ways that the analysis follows lead to each index.
pub fn note_ways(annotated: Annotated, ways: &mut [u8]) {
    // No more indices than a program may have.
    let count = (annotated.program.len() / 8).min(4096);
    for index in 0..count {
        let place = Place { annotated, index };
        if let Some(effect) = place.effect() {
            note_from(ways, index, effect);
        }
    }
}

// Whether more than one way leads to index i.
pub fn joined(ways: &[u8], i: usize) -> bool {
    ways.get(i).is_some_and(|way| *way >= 2)
}
