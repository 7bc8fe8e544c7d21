// Lists: the test whether a set of triples is a triangulation of the shots.
//
//   test    accepted                  1-4, 7 10 8 9
//
// It takes every input; specs/Calls.antt says what it answers, specs/Lines.antt when it refuses.
#![tactic(auto)]

ghost use Rattle.std.specs.Prelude.{◌≡◌};
ghost use Rattle.triples.specs.Sets.{words_of};
ghost use Rattle.shots.specs.Refusals.{answered};
ghost use Rattle.lists.specs.Calls.{test_of};

use arrayvec::ArrayVec;
use circuits::CIRCUITS_MOST;
use shots::{Refusal, SHOTS_MOST};
use triples::{Triples, WORDS};

pub mod edges;
pub mod kernel;

use kernel::Held;

// What a test reads is worked out once, into one table of sets of triples. Its rows: those that hold shot k, from row 0 on; around the plus side of circuit z; around the minus side;
// the inner triples of each pair; and one row for the triples that are not flat.
pub const PLUS_FIRST: usize = SHOTS_MOST;

pub const MINUS_FIRST: usize = PLUS_FIRST + CIRCUITS_MOST;

pub const INNER_FIRST: usize = MINUS_FIRST + CIRCUITS_MOST;

pub const SOLID_ROW: usize = INNER_FIRST + SHOTS_MOST * SHOTS_MOST;

pub const HELD_ROWS: usize = SOLID_ROW + 1;

pub const HELD_WORDS: usize = WORDS * HELD_ROWS;

pub fn test(shots: &[i32], list: Triples) -> Result<(), Refusal>
    ensures { answered result ≡ test_of shots.now (words_of list) }
{
    shots::accept(shots)?;
    let mut held = Held {
        circuits: ArrayVec::new(),
        rows: [0; HELD_WORDS],
    };
    kernel::prepare(shots, &mut held);
    kernel::accept(shots, &held, list)
}
