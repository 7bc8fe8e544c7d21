// The tests of a run of coordinates, in the order of their refusals, and of numbers of shots.
ghost use Rattle.std.specs.Prelude.{◌≡◌, ◌||◌, ◌<◌, leb, ltb, length, get_or, pos, nat_abs};
ghost use Rattle.algebra.specs.Sign.{eq_z};
ghost use Rattle.shots.specs.Sizes.{farthest};
ghost use Rattle.shots.specs.Patch.{count_of};
ghost use Rattle.shots.specs.Tests.{Near, bad_count, some_far, same_at, same_before, some_same, bent_at, bent_of, bent_before, some_bent, refusal_of};

use super::{HIGHEST, LOWEST, SHOTS_LEAST, SHOTS_MOST, plane};

#[tactic(auto, unfolding(crate::specs::Tests::bad_count))]
pub fn bad_count(shots: &[i32]) -> bool
    ensures { result ≡ bad_count shots.now }
{
    let n = shots.len() / 2;
    shots.len() % 2 == 1 || n < SHOTS_LEAST || SHOTS_MOST < n
}

// Whether a coordinate is beyond its range.
fn beyond(x: i32) -> bool
    ensures { result ≡ ltb farthest (nat_abs x) }
{
    x < LOWEST || HIGHEST < x
}

pub fn some_far(shots: &[i32]) -> bool
    ensures { result ≡ some_far shots.now }
{
    shots.iter().any(|x| beyond(*x))
}

// Whether the coordinates at two places of the run are the same.
pub fn same(shots: &[i32], i: usize, j: usize) -> bool
    requires { (i < length shots.now) × (j < length shots.now) }
    ensures { result ≡ eq_z (get_or shots.now i (pos 0)) (get_or shots.now j (pos 0)) }
{
    shots[i] == shots[j]
}

// Whether shots i and j are equal.
#[tactic(auto, unfolding(crate::specs::Tests::same_at, crate::specs::Coordinates::x_of, crate::specs::Coordinates::y_of))]
fn same_at(shots: &[i32], j: usize, i: usize) -> bool
    requires { (j < count_of shots.now) × (i < count_of shots.now) }
    ensures { result ≡ same_at shots.now j i }
{
    same(shots, 2 * i, 2 * j) && same(shots, 2 * i + 1, 2 * j + 1)
}

fn same_before(shots: &[i32], j: usize) -> bool
    requires { j < count_of shots.now }
    ensures { result ≡ same_before shots.now j }
{
    (0..j).any(|i| same_at(shots, j, i))
}

pub fn some_same(shots: &[i32]) -> bool
    ensures { result ≡ some_same shots.now }
{
    (0..shots.len() / 2).any(|j| same_before(shots, j))
}

// Whether three shots are not on one line.
#[tactic(auto, unfolding(crate::specs::Tests::bent_at))]
fn bent_at(shots: &[i32], c: usize, b: usize, a: usize) -> bool
    requires { (a < count_of shots.now) × (b < count_of shots.now) × (c < count_of shots.now) × Near shots.now }
    ensures { result ≡ bent_at shots.now c b a }
{
    plane::sign(shots, a, b, c) != 0
}

fn bent_of(shots: &[i32], c: usize, b: usize) -> bool
    requires { (b < c) × (c < count_of shots.now) × Near shots.now }
    ensures { result ≡ bent_of shots.now c b }
{
    (0..b).any(|a| bent_at(shots, c, b, a))
}

fn bent_before(shots: &[i32], c: usize) -> bool
    requires { (c < count_of shots.now) × Near shots.now }
    ensures { result ≡ bent_before shots.now c }
{
    (0..c).any(|b| bent_of(shots, c, b))
}

pub fn some_bent(shots: &[i32]) -> bool
    requires { Near shots.now }
    ensures { result ≡ some_bent shots.now }
{
    (0..shots.len() / 2).any(|c| bent_before(shots, c))
}

// Whether one of three numbers is not a shot, of n.
pub fn no_shot(n: usize, a: usize, b: usize, c: usize) -> bool
    ensures { result ≡ (leb n a || (leb n b || leb n c)) }
{
    n <= a || n <= b || n <= c
}

// Whether i, j is not a pair of shots in order, of n.
pub fn no_pair(n: usize, i: usize, j: usize) -> bool
    ensures { result ≡ (leb n i || (leb n j || leb j i)) }
{
    n <= i || n <= j || j <= i
}
