// The chains of an accepted patch: from the first shot on, each time the shot that no other one ahead passes.
ghost use Rattle.std.specs.Prelude.{◌≡◌, ◌≤◌, ◌<◌};
ghost use Rattle.shots.specs.Sizes.{shots_most};
ghost use Rattle.shots.specs.Patch.{count_of};
ghost use Rattle.shots.specs.Tests.{Near};
ghost use Rattle.outline.specs.Wrapping.{is_north, first_of, passes_of, next_of, chain_of};

use super::Facing;
use arrayvec::ArrayVec;
use shots::{SHOTS_MOST, pairs, plane};

// The leftmost shot, the lowest of equals.
fn first(shots: &[i32]) -> usize
    requires { 0 < count_of shots.now }
    ensures { (result ≡ first_of shots.now) × (result < count_of shots.now) }
{
    let n = shots.len() / 2;
    let mut best = 0;
    for k in 0..n {
        if pairs::precedes(shots, k, best) {
            best = k;
        }
    }
    best
}

// Whether shot k comes behind p rather than q: it is ahead of p, and on the outer side of p and q, or farther on their line. The outer side of the north chain is left, of the south chain right.
fn passes(shots: &[i32], facing: Facing, p: usize, q: usize, k: usize) -> bool
    requires { (p < count_of shots.now) × (q < count_of shots.now) × (k < count_of shots.now) × Near shots.now }
    ensures { result ≡ passes_of shots.now (is_north facing) p q k }
{
    pairs::precedes(shots, p, k)
        && match plane::sign(shots, p, q, k) {
            0 => pairs::precedes(shots, q, k),
            1 => facing == Facing::North,
            _ => facing == Facing::South,
        }
}

// The shot behind p, and p itself where it is the last.
fn next(shots: &[i32], facing: Facing, p: usize) -> usize
    requires { (p < count_of shots.now) × Near shots.now }
    ensures { (result ≡ next_of shots.now (is_north facing) p) × (result < count_of shots.now) }
{
    let n = shots.len() / 2;
    let mut q = p;
    for k in 0..n {
        if passes(shots, facing, p, q, k) {
            q = k;
        }
    }
    q
}

// The north chain or the south chain, from the first shot on.
pub fn chain(shots: &[i32], facing: Facing) -> ArrayVec<u8, SHOTS_MOST>
    requires { (0 < count_of shots.now) × (count_of shots.now ≤ shots_most) × Near shots.now }
    ensures { result.items ≡ chain_of shots.now (is_north facing) }
{
    let n = shots.len() / 2;
    let mut corners = ArrayVec::new();
    let mut p = first(shots);
    for _ in 0..n {
        corners.push(p as u8);
        let q = next(shots, facing, p);
        if q == p {
            break;
        }
        p = q;
    }
    corners
}
