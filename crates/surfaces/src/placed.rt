// The placing surface, shot by shot.
ghost use Rattle.std.specs.Prelude.{◌≡◌, ◌<◌, ◌≤◌, ◌&&◌};
ghost use Rattle.algebra.specs.Words.{both_of, meets_of};
ghost use Rattle.shots.specs.Patch.{count_of, orient_of};
ghost use Rattle.shots.specs.Tests.{Near, refusal_of};
ghost use Rattle.triples.specs.Sets.{words_of, holders_of};
ghost use Rattle.surfaces.specs.NearFact.{near_fact};
ghost use Rattle.surfaces.specs.Placing.{first_off, opposed, visible, place_shot, placed_of};

use super::holders::Holders;
use triples::{Triples, sets};

// A patch as its shots are placed: the shots, and the triples by the shots that they hold.
#[derive(Clone, Copy)]
struct Ground<'a> {
    shots: &'a [i32],
    held: Holders<'a>,
    ghost near: { Near shots.now } by { near_fact shots.now },
    ghost counted: { held.n ≡ count_of shots.now },
}

// The smallest shot that is not on the line of shots 0 and 1.
fn first_off(shots: &[i32]) -> usize
    requires { Near shots.now × (2 ≤ count_of shots.now) }
    ensures { result ≡ first_off shots.now }
{
    let n = shots.len() / 2;
    (0..n)
        .position(|k| shots::plane::sign(shots, 0, 1, k) != 0)
        .unwrap_or(n)
}

// Whether v makes a triple with an edge i, j, one of the given ones, and v and m are strictly on opposite sides of it.
fn across(ground: Ground, edge: Triples, m: usize, i: usize, j: usize, v: usize) -> bool
    requires { (i < ground.held.n) × (j < ground.held.n) × (m < ground.held.n) × (v < ground.held.n) }
    ensures { result ≡ (meets_of (words_of edge) (holders_of (count_of ground.entry.shots.now) v) && opposed (orient_of ground.entry.shots.now i j v) (orient_of ground.entry.shots.now i j m)) }
{
    sets::meets(edge, ground.held.row(v))
        && shots::plane::sign(ground.shots, i, j, v) * shots::plane::sign(ground.shots, i, j, m) < 0
}

// The triples that hold i and j.
fn edge(held: Holders, i: usize, j: usize) -> Triples
    requires { (i < held.n) × (j < held.n) }
    ensures { words_of result ≡ both_of (holders_of held.entry.n i) (holders_of held.entry.n j) }
{
    sets::both(held.row(i), held.row(j))
}

// Whether i, j is an edge of exactly one triple of the list, and m lies strictly on the other side from its third shot.
fn sees(ground: Ground, list: Triples, m: usize, i: usize, j: usize) -> bool
    requires { (i < j) × (j < ground.held.n) × (m < ground.held.n) }
    ensures { result ≡ visible ground.entry.shots.now (words_of list) m i j }
{
    let star = sets::both(edge(ground.held, i, j), list);
    sets::alone(star) && (0..ground.held.n).any(|v| across(ground, star, m, i, j, v))
}

// The triple of three shots, as a set.
fn corner(held: Holders, i: usize, j: usize, m: usize) -> Triples
    requires { (i < held.n) × (j < held.n) × (m < held.n) }
    ensures { words_of result ≡ both_of (both_of (holders_of held.entry.n i) (holders_of held.entry.n j)) (holders_of held.entry.n m) }
{
    sets::both(edge(held, i, j), held.row(m))
}

// The list with m joined to every edge that it sees.
fn place(ground: Ground, list: Triples, m: usize) -> Triples
    requires { m < ground.held.n }
    ensures { words_of result ≡ place_shot ground.entry.shots.now (words_of list) m }
{
    let mut t = list;
    for j in 0..ground.held.n {
        for i in 0..j {
            if sees(ground, list, m, i, j) {
                t = sets::either(t, corner(ground.held, i, j, m));
            }
        }
    }
    t
}

// Every shot is placed, in increasing number; 0, 1 and the first one off their line make the first triple.
pub fn all(shots: &[i32], held: Holders) -> Triples
    requires { (refusal_of shots.now ≡ 0) × (held.n ≡ count_of shots.now) }
    ensures { words_of result ≡ placed_of shots.now }
{
    let ground = Ground { shots, held };
    let off = first_off(shots);
    let mut t = corner(held, 0, 1, off);
    for m in 2..held.n {
        if m != off {
            t = place(ground, t, m);
        }
    }
    t
}
