// Pairs of shots that are known to be there and near: their cocircuits, which of them are border pairs and sides, and which of two is before the other.
ghost use Rattle.std.specs.Prelude.{◌≡◌, ◌≤◌, ◌<◌, length, get_or, pos};
ghost use Rattle.std.specs.Int.Signed.{lt_z};
ghost use Rattle.algebra.specs.Loops.{tabulate, tally};
ghost use Rattle.shots.specs.Sizes.{shots_most};
ghost use Rattle.shots.specs.Patch.{count_of, some_left, border_of, outside_at, some_outside, side_pair_of, before_of};
ghost use Rattle.shots.specs.Tests.{Near};
ghost use Rattle.shots.specs.Calls.{sign_at, sides_of};

use super::{SHOTS_MOST, plane, tests};
use std::array;

// The sign of place k in the cocircuit of i, j: 0 past the shots.
#[tactic(auto, unfolding(crate::specs::Calls::sign_at))]
fn sign_at(shots: &[i32], i: usize, j: usize, k: usize) -> i8
    requires { (i < count_of shots.now) × (j < count_of shots.now) × Near shots.now }
    ensures { result ≡ sign_at shots.now i j k }
{
    if k < shots.len() / 2 {
        return plane::sign(shots, i, j, k);
    }
    0
}

pub fn signs_of(shots: &[i32], i: usize, j: usize) -> [i8; SHOTS_MOST]
    requires { (i < count_of shots.now) × (j < count_of shots.now) × Near shots.now }
    ensures { result ≡ tabulate shots_most (sign_at shots.now i j) }
{
    array::from_fn(|k| sign_at(shots, i, j, k))
}

// Whether some shot lies left of i, j.
fn some_left(shots: &[i32], i: usize, j: usize) -> bool
    requires { (i < count_of shots.now) × (j < count_of shots.now) × Near shots.now }
    ensures { result ≡ some_left shots.now i j }
{
    (0..shots.len() / 2).any(|k| plane::sign(shots, i, j, k) == 1)
}

// What lies right of i, j lies left of j, i.
#[tactic(auto, unfolding(crate::specs::Patch::border_of))]
pub fn is_border(shots: &[i32], i: usize, j: usize) -> bool
    requires { (i < count_of shots.now) × (j < count_of shots.now) × Near shots.now }
    ensures { result ≡ border_of shots.now i j }
{
    !some_left(shots, i, j) || !some_left(shots, j, i)
}

// Whether shot k is another shot on the line of i and j, and not between the two.
#[tactic(auto, using(algebra::proofs::SizeLaws::sign_is_nought), unfolding(crate::specs::Patch::outside_at))]
fn is_outside(shots: &[i32], i: usize, j: usize, k: usize) -> bool
    requires { (i < count_of shots.now) × (j < count_of shots.now) × (k < count_of shots.now) × Near shots.now }
    ensures { result ≡ outside_at shots.now i j k }
{
    if k == i || k == j {
        return false;
    }
    plane::sign(shots, i, j, k) == 0 && !plane::between(shots, k, i, j)
}

fn some_outside(shots: &[i32], i: usize, j: usize) -> bool
    requires { (i < count_of shots.now) × (j < count_of shots.now) × Near shots.now }
    ensures { result ≡ some_outside shots.now i j }
{
    (0..shots.len() / 2).any(|k| is_outside(shots, i, j, k))
}

#[tactic(auto, unfolding(crate::specs::Patch::side_pair_of))]
fn is_side(shots: &[i32], i: usize, j: usize) -> bool
    requires { (i < count_of shots.now) × (j < count_of shots.now) × Near shots.now }
    ensures { result ≡ side_pair_of shots.now i j }
{
    is_border(shots, i, j) && !some_outside(shots, i, j)
}

// How many sides have j as their larger end.
fn sides_of(shots: &[i32], j: usize) -> usize
    requires { (j < count_of shots.now) × Near shots.now }
    ensures { result ≡ sides_of shots.now j }
{
    (0..j).filter(|i| is_side(shots, *i, j)).count()
}

pub fn side_count(shots: &[i32]) -> usize
    requires { (count_of shots.now ≤ shots_most) × Near shots.now }
    ensures { result ≡ tally (count_of shots.now) (sides_of shots.now) }
{
    (0..shots.len() / 2).map(|j| sides_of(shots, j)).sum()
}

// Whether the coordinate at one place of the run is less than the one at another.
fn less(shots: &[i32], i: usize, j: usize) -> bool
    requires { (i < length shots.now) × (j < length shots.now) }
    ensures { result ≡ lt_z (get_or shots.now i (pos 0)) (get_or shots.now j (pos 0)) }
{
    shots[i] < shots[j]
}

// Whether shot i is left of shot j, or below it on an upright line.
#[tactic(auto, unfolding(crate::specs::Patch::before_of, crate::specs::Coordinates::x_of, crate::specs::Coordinates::y_of))]
pub fn precedes(shots: &[i32], i: usize, j: usize) -> bool
    requires { (i < count_of shots.now) × (j < count_of shots.now) }
    ensures { result ≡ before_of shots.now i j }
{
    if tests::same(shots, 2 * i, 2 * j) {
        return less(shots, 2 * i + 1, 2 * j + 1);
    }
    less(shots, 2 * i, 2 * j)
}
