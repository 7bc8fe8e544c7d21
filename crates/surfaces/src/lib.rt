// Surfaces: the placing surface of a patch, the flip of a surface along a circuit, and the sum of its areas.
//
//   placing    a list                  1-4
//   flip       a list                  1-4, 7 10 8 9, 12 13
//
// Every call takes every input; specs/Calls.antt says what it answers, specs/Lines.antt when it refuses.
#![tactic(auto)]

ghost use Rattle.std.specs.Prelude.{◌≡◌};
ghost use Rattle.triples.specs.Sets.{words_of};
ghost use Rattle.shots.specs.Refusals.{answer_of};
ghost use Rattle.surfaces.specs.Calls.{placing_of, flip_of};

use arrayvec::ArrayVec;
use holders::Holders;
use lists::kernel::Held;
use lists::{HELD_WORDS, kernel};
use shots::{Refusal, SHOTS_MOST};
use triples::{Triples, WORDS};

pub mod areas;
pub mod flips;
pub mod holders;
pub mod placed;

// The words of a table that has a row for each shot.
const HOLDING_WORDS: usize = WORDS * SHOTS_MOST;

pub fn placing(shots: &[i32]) -> Result<Triples, Refusal>
    ensures { answer_of words_of result ≡ placing_of shots.now }
{
    shots::accept(shots)?;
    let n = shots.len() / 2;
    let mut held = [0u64; HOLDING_WORDS];
    triples::holding::fill(n, &mut held);
    Ok(placed::all(shots, Holders { held: &held, n }))
}

pub fn flip(shots: &[i32], list: Triples, z: usize) -> Result<Triples, Refusal>
    ensures { answer_of words_of result ≡ flip_of shots.now (words_of list) z }
{
    shots::accept(shots)?;
    let mut held = Held {
        circuits: ArrayVec::new(),
        rows: [0; HELD_WORDS],
    };
    kernel::prepare(shots, &mut held);
    kernel::accept(shots, &held, list)?;
    let Some(side) = held.circuits.get(z) else {
        return Err(Refusal::Circuit);
    };
    let x = side.plus + side.minus;
    let holders = Holders {
        held: &held.rows,
        n: shots.len() / 2,
    };
    flips::between(
        holders,
        x,
        flips::star(holders, side.plus, x),
        flips::star(holders, side.minus, x),
        list,
    )
    .ok_or(Refusal::Flip)
}
