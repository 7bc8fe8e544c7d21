// The test of a list of a patch whose shots are known to be right, over a table that is worked out once.
ghost use Rattle.std.specs.Prelude.{◌≡◌, ◌*◌, ◌≤◌, ◌&&◌, length};
ghost use Rattle.algebra.specs.Answer.{chain};
ghost use Rattle.algebra.specs.Loops.{any};
ghost use Rattle.algebra.specs.Words.{meets_of, row_of};
ghost use Rattle.shots.specs.Sizes.{shots_most};
ghost use Rattle.shots.specs.Patch.{count_of};
ghost use Rattle.shots.specs.Tests.{Near};
ghost use Rattle.shots.specs.Refusals.{answered};
ghost use Rattle.triples.specs.Sizes.{word_count};
ghost use Rattle.triples.specs.Sets.{words_of, SameBelow, Holding};
ghost use Rattle.arrayvec.specs.ArrayVec.{array_vec_len};
ghost use Rattle.lists.specs.Tests.{list_rules};
ghost use Rattle.lists.specs.Held.{held_rows, plus_row, minus_row, solid_of, Around, HeldOf};

use super::{HELD_WORDS, MINUS_FIRST, PLUS_FIRST, SOLID_ROW, edges};
use arrayvec::ArrayVec;
use circuits::{CIRCUITS_MOST, Sides};
use shots::Refusal;
use triples::ranks::Triple;
use triples::{Triples, holding, ranks, rows, sets};

// Everything that the test, the flip and the walk read of a patch, worked out once: its circuits, and the table.
#[derive(Drop)]
pub struct Held {
    pub circuits: ArrayVec<Sides, CIRCUITS_MOST>,
    pub rows: [u64; HELD_WORDS],
}

// The triples that are not flat.
pub fn solid(shots: &[i32]) -> Triples
    requires { Near shots.now × (count_of shots.now ≤ shots_most) }
    ensures { words_of result ≡ solid_of shots.now }
{
    let n = shots.len() / 2;
    let mut t = sets::none();
    let mut s = Triple { i: 0, j: 1, k: 2 };
    for r in 0..ranks::count(n) {
        if shots::plane::sign(shots, s.i, s.j, s.k) != 0 {
            t = sets::with(t, r);
        }
        s = ranks::next(n, s.i, s.j, s.k);
    }
    t
}

// The rows around the sides of each circuit.
fn sides(n: usize, circuits: &ArrayVec<Sides, CIRCUITS_MOST>, held: &mut [u64])
    requires { (n ≤ shots_most) × Holding n held.old × (word_count * held_rows ≤ length held.old) }
    ensures { (length held.new ≡ length held.old) × Around n circuits.now.items (array_vec_len circuits.now) held.new × SameBelow shots_most held.old held.new }
{
    let all = holding::full(n);
    for (z, side) in circuits.iter().enumerate() {
        let plus = holding::around(held, n, side.plus, all);
        let minus = holding::around(held, n, side.minus, all);
        rows::put_row(held, PLUS_FIRST + z, plus);
        rows::put_row(held, MINUS_FIRST + z, minus);
    }
}

// All of it, in its place: the value is too large to be moved from call to call.
pub fn prepare(shots: &[i32], held: &mut Held)
    requires { Near shots.now × (count_of shots.now ≤ shots_most) }
    ensures { HeldOf shots.now held.new }
{
    let n = shots.len() / 2;
    circuits::kernel::fill(shots, &mut held.circuits);
    holding::fill(n, &mut held.rows);
    sides(n, &held.circuits, &mut held.rows);
    edges::fill(shots, &mut held.rows);
    rows::put_row(&mut held.rows, SOLID_ROW, solid(shots));
}

// Whether a circuit has its plus side inside a triple of the list and its minus side inside one.
fn crossing(held: &Held, list: Triples) -> bool
    ensures { result ≡ any (array_vec_len held.now.circuits) (λ z. meets_of (words_of list) (row_of word_count held.now.rows (plus_row z)) && meets_of (words_of list) (row_of word_count held.now.rows (minus_row z))) }
{
    (0..held.circuits.len()).any(|z| {
        sets::meets(list, rows::row_at(&held.rows, PLUS_FIRST + z))
            && sets::meets(list, rows::row_at(&held.rows, MINUS_FIRST + z))
    })
}

// Whether the list is a triangulation of the shots.
pub fn accept(shots: &[i32], held: &Held, list: Triples) -> Result<(), Refusal>
    requires { (count_of shots.now ≤ shots_most) × HeldOf shots.now held.now }
    ensures { answered result ≡ chain (list_rules shots.now (words_of list)) tt }
{
    if !sets::inside(list, rows::row_at(&held.rows, SOLID_ROW)) {
        return Err(Refusal::Shot);
    }
    if sets::is_empty(list) {
        return Err(Refusal::Empty);
    }
    if crossing(held, list) {
        return Err(Refusal::Crossing);
    }
    if edges::open(&held.rows, shots.len() / 2, list) {
        return Err(Refusal::Open);
    }
    Ok(())
}
