// What a run works out once: all that the test and the flip of a row read of a patch.
ghost use Rattle.std.specs.Prelude.{◌≡◌, ℕ, ◌+◌, ◌^◌, ◌<◌, length, map, option_map};
ghost use Rattle.shots.specs.Sizes.{mask_bits};
ghost use Rattle.shots.specs.Tests.{refusal_of};
ghost use Rattle.arrayvec.specs.ArrayVec.{array_vec_len};
ghost use Rattle.circuits.specs.Numbering.{circuits_of};
ghost use Rattle.triples.specs.Sets.{words_of};
ghost use Rattle.lists.specs.Held.{sides_at};
ghost use Rattle.lists.specs.Tests.{list_refusal_of};
ghost use Rattle.surfaces.specs.Stars.{found_answer};
ghost use Rattle.surfaces.specs.Calls.{flip_of};
ghost use Rattle.ready.specs.Ready.{stars_of, ReadyFor};

use arrayvec::ArrayVec;
use circuits::{CIRCUITS_MOST, Sides};
use lists::kernel;
use lists::kernel::Held;
use surfaces::flips;
use surfaces::holders::Holders;
use triples::{Triples, sets};

// The stars of a circuit's sides.
#[derive(Clone, Copy, Debug, PartialEq, Eq)]
pub struct Stars {
    pub plus: Triples,
    pub minus: Triples,
}

impl Default for Stars {
    fn default() -> Self {
        Stars {
            plus: sets::none(),
            minus: sets::none(),
        }
    }
}

// All of it: what a test reads, and the stars of each circuit.
#[derive(Drop)]
pub struct Ready {
    pub held: Held,
    pub stars: ArrayVec<Stars, CIRCUITS_MOST>,
}

// The stars of each circuit, in order.
fn all_stars(
    circuits: &ArrayVec<Sides, CIRCUITS_MOST>,
    holders: Holders,
    stars: &mut ArrayVec<Stars, CIRCUITS_MOST>,
)
    requires { (z : ℕ) → z < array_vec_len circuits.now → (sides_at circuits.now.items z).plus + (sides_at circuits.now.items z).minus < 2 ^ mask_bits }
    ensures { stars.new.items ≡ map (stars_of holders.entry.n) circuits.now.items }
{
    stars.clear();
    for side in circuits.iter() {
        let x = side.plus + side.minus;
        stars.push(Stars {
            plus: flips::star(holders, side.plus, x),
            minus: flips::star(holders, side.minus, x),
        });
    }
}

// In its place, since the value is too large to be moved from call to call.
pub fn prepare(shots: &[i32], ready: &mut Ready)
    requires { refusal_of shots.now ≡ 0 }
    ensures { ReadyFor shots.now ready.new }
{
    kernel::prepare(shots, &mut ready.held);
    let holders = Holders {
        held: &ready.held.rows,
        n: shots.len() / 2,
    };
    all_stars(&ready.held.circuits, holders, &mut ready.stars);
}

// The flip of an accepted list along circuit z, where there is one.
pub fn turn(shots: &[i32], ready: &Ready, list: Triples, z: usize) -> Option<Triples>
    requires { (refusal_of shots.now ≡ 0) × ReadyFor shots.now ready.now × (list_refusal_of shots.now (words_of list) ≡ 0) × (z < length (circuits_of shots.now)) }
    ensures { found_answer (option_map words_of result) ≡ flip_of shots.now (words_of list) z }
{
    let side = ready.held.circuits[z];
    let stars = ready.stars[z];
    let holders = Holders {
        held: &ready.held.rows,
        n: shots.len() / 2,
    };
    flips::between(
        holders,
        side.plus + side.minus,
        stars.plus,
        stars.minus,
        list,
    )
}
