// The inner triples of each pair of shots, and the open edges of a list.
ghost use Rattle.std.specs.Prelude.{◌≡◌, ◌*◌, ◌<◌, ◌≤◌, length};
ghost use Rattle.algebra.specs.Loops.{any};
ghost use Rattle.algebra.specs.Words.{both_of, alone_of, row_of};
ghost use Rattle.shots.specs.Sizes.{shots_most};
ghost use Rattle.shots.specs.Patch.{count_of};
ghost use Rattle.shots.specs.Tests.{Near};
ghost use Rattle.triples.specs.Sizes.{word_count};
ghost use Rattle.triples.specs.Sets.{words_of, SameBelow, Written, Holding};
ghost use Rattle.lists.specs.Held.{held_rows, inner_first, inner_from, inner_of, inner_row, Inner};

use super::INNER_FIRST;
use super::kernel::Held;
use shots::SHOTS_MOST;
use triples::{Triples, rows, sets};

// The triples that hold the pair i, j; none where it is a border pair.
fn inner(shots: &[i32], held: &[u64], i: usize, j: usize) -> Triples
    requires { (i < j) × (j < count_of shots.now) × Near shots.now × (count_of shots.now ≤ shots_most) × (word_count * count_of shots.now ≤ length held.now) × Holding (count_of shots.now) held.now }
    ensures { words_of result ≡ inner_of shots.now i j }
{
    if shots::pairs::is_border(shots, i, j) {
        sets::none()
    } else {
        sets::both(rows::row_at(held, i), rows::row_at(held, j))
    }
}

// The rows of all pairs; those before stay.
pub fn fill(shots: &[i32], held: &mut [u64])
    requires { Near shots.now × (count_of shots.now ≤ shots_most) × (word_count * held_rows ≤ length held.old) × Holding (count_of shots.now) held.old }
    ensures { (length held.new ≡ length held.old) × Inner shots.now held.new × SameBelow inner_first held.old held.new }
{
    let n = shots.len() / 2;
    for j in 0..n {
        for i in 0..j {
            let inner = inner(shots, held, i, j);
            rows::put_row(held, INNER_FIRST + SHOTS_MOST * j + i, inner);
        }
    }
}

// Whether an edge to j from a smaller shot is open: exactly one triple of the list is among its inner triples.
fn open_with(held: &[u64], j: usize, list: Triples) -> bool
    requires { (j < shots_most) × (word_count * held_rows ≤ length held.now) }
    ensures { result ≡ any j (λ i. alone_of (both_of (words_of list) (row_of word_count held.now (inner_row i j)))) }
{
    (0..j).any(|i| {
        sets::alone(sets::both(list, rows::row_at(held, INNER_FIRST + SHOTS_MOST * j + i)))
    })
}

// Whether an edge of the list is open.
pub fn open(held: &[u64], n: usize, list: Triples) -> bool
    requires { (n ≤ shots_most) × (word_count * held_rows ≤ length held.now) }
    ensures { result ≡ any n (λ j. any j (λ i. alone_of (both_of (words_of list) (row_of word_count held.now (inner_row i j))))) }
{
    (0..n).any(|j| open_with(held, j, list))
}
