// All circuits of a patch, worked out once: place z holds the sides of circuit z.
ghost use Rattle.std.specs.Prelude.{◌≡◌, ◌<◌, ◌≤◌, ◌||◌, map, pos, option_to_list};
ghost use Rattle.algebra.specs.Sign.{eq_z};
ghost use Rattle.shots.specs.Sizes.{shots_most};
ghost use Rattle.shots.specs.Patch.{count_of};
ghost use Rattle.shots.specs.Tests.{Near};
ghost use Rattle.circuits.specs.Sides.{masks};
ghost use Rattle.circuits.specs.Numbering.{three, four, circuits_of};

use super::{CIRCUITS_MOST, Sides, masks};
use arrayvec::ArrayVec;

// Three shots a < b < c: a circuit where they are on a line. A shot is on the side of a where both are ends, or both the middle.
fn three(shots: &[i32], a: usize, b: usize, c: usize) -> Option<Sides>
    requires { (a < b) × (b < c) × (c < count_of shots.now) × Near shots.now × (count_of shots.now ≤ shots_most) }
    ensures { option_to_list result ≡ map masks (three shots.now a b c) }
{
    if shots::plane::sign(shots, a, b, c) != 0 {
        return None;
    }
    let ma = shots::plane::between(shots, a, b, c);
    let mb = shots::plane::between(shots, b, a, c);
    let mc = shots::plane::between(shots, c, a, b);
    Some(masks::of_three(a, b, c, mb == ma, mc == ma))
}

// Whether one of four signs is 0.
fn some_zero(a: i8, b: i8, c: i8, d: i8) -> bool
    ensures { result ≡ (eq_z a (pos 0) || (eq_z b (pos 0) || (eq_z c (pos 0) || eq_z d (pos 0)))) }
{
    a == 0 || b == 0 || c == 0 || d == 0
}

// Four shots a < b < c < d: a circuit where no three are on a line. The signs of b and d are turned, so they are on the side of a where theirs differ from its.
fn four(shots: &[i32], a: usize, b: usize, c: usize, d: usize) -> Option<Sides>
    requires { (a < b) × (b < c) × (c < d) × (d < count_of shots.now) × Near shots.now × (count_of shots.now ≤ shots_most) }
    ensures { option_to_list result ≡ map masks (four shots.now a b c d) }
{
    let sa = shots::plane::sign(shots, b, c, d);
    let sb = shots::plane::sign(shots, a, c, d);
    let sc = shots::plane::sign(shots, a, b, d);
    let sd = shots::plane::sign(shots, a, b, c);
    if some_zero(sa, sb, sc, sd) {
        return None;
    }
    Some(masks::of_four(a, b, c, d, sb != sa, sc == sa, sd != sa))
}

// Every circuit, in the order of their numbers: all threes, then all fours. In its place: a vector that is handed back is copied.
pub fn fill(shots: &[i32], found: &mut ArrayVec<Sides, CIRCUITS_MOST>)
    requires { Near shots.now × (count_of shots.now ≤ shots_most) }
    ensures { found.new.items ≡ map masks (circuits_of shots.now) }
{
    let n = shots.len() / 2;
    found.clear();
    for a in 0..n {
        for b in a + 1..n {
            for c in b + 1..n {
                if let Some(z) = three(shots, a, b, c) {
                    found.push(z);
                }
            }
        }
    }
    for a in 0..n {
        for b in a + 1..n {
            for c in b + 1..n {
                for d in c + 1..n {
                    if let Some(z) = four(shots, a, b, c, d) {
                        found.push(z);
                    }
                }
            }
        }
    }
}

// The same by value.
pub fn all(shots: &[i32]) -> ArrayVec<Sides, CIRCUITS_MOST>
    requires { Near shots.now × (count_of shots.now ≤ shots_most) }
    ensures { result.items ≡ map masks (circuits_of shots.now) }
{
    let mut found = ArrayVec::new();
    fill(shots, &mut found);
    found
}
