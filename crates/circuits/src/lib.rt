// Circuits: the smallest dependent sets of shots, split in two, numbered from 0.
//
//   count      C, how many circuits the patch has                1-4
//   circuit    the two sides of circuit z, a bit for each shot    1-4, 12
//
// Every call takes every input; specs/Calls.antt says what it answers, specs/Lines.antt when it refuses.
#![tactic(auto)]

ghost use Rattle.std.specs.Prelude.{◌≡◌};
ghost use Rattle.shots.specs.Refusals.{answered};
ghost use Rattle.circuits.specs.Calls.{count_call_of, circuit_call_of};

use arrayvec::ArrayVec;
use shots::Refusal;

pub mod kernel;
mod masks;

// A patch has at most this many circuits: the sets of three and of four of its shots.
pub const CIRCUITS_MOST: usize = 330;

// The sides of a circuit, shot i at bit i. The plus side holds the smallest shot.
#[derive(Clone, Copy, Debug, Default, PartialEq, Eq)]
pub struct Sides {
    pub plus: u16,
    pub minus: u16,
}

pub fn count(shots: &[i32]) -> Result<usize, Refusal>
    ensures { answered result ≡ count_call_of shots.now }
{
    shots::accept(shots)?;
    let mut found = ArrayVec::<Sides, CIRCUITS_MOST>::new();
    kernel::fill(shots, &mut found);
    Ok(found.len())
}

pub fn circuit(shots: &[i32], z: usize) -> Result<Sides, Refusal>
    ensures { answered result ≡ circuit_call_of shots.now z }
{
    shots::accept(shots)?;
    let mut found = ArrayVec::<Sides, CIRCUITS_MOST>::new();
    kernel::fill(shots, &mut found);
    found.get(z).copied().ok_or(Refusal::Circuit)
}
