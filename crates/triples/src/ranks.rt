// Ranks of triples i < j < k among n shots: lexicographic, from 0, by formula.
ghost use Rattle.std.specs.Prelude.{◌≡◌, [], ◌∷◌, ◌+◌, ◌-◌, ◌≤◌, ◌<◌};
ghost use Rattle.algebra.specs.Sets.{set_of};
ghost use Rattle.algebra.specs.Places.{choose, set_by, next_of};
ghost use Rattle.shots.specs.Sizes.{shots_most};
ghost use Rattle.triples.specs.Ranks.{triple_count, triple_at, rank_of, piece_count, rank_in};
ghost use Rattle.triples.specs.Pieces.{piece_of, Piece};

use super::{PIECE, masks};

#[derive(Clone, Copy, PartialEq, Eq, Debug)]
pub struct Triple {
    pub i: usize,
    pub j: usize,
    pub k: usize,
}

// How many sets of k there are of m shots. No turn's division leaves a rest.
fn choose(m: usize, k: usize) -> usize
    requires { m ≤ shots_most }
    ensures { result ≡ choose m k }
{
    if m < k {
        return 0;
    }
    let mut c = 1;
    for i in 0..k {
        c = c * (m - i) / (i + 1);
    }
    c
}

// How many triples n shots have.
pub fn count(n: usize) -> usize
    requires { n ≤ shots_most }
    ensures { result ≡ triple_count n }
{
    piece_count(PIECE, n)
}

// The first number of a list of numbers, and the place of the others among the lists that begin with it.
#[derive(Clone, Copy)]
struct Leading {
    number: usize,
    rest: usize,
}

// So for the list at place r among those of k + 1 of the numbers from a to n - 1: the lists that begin with an earlier number are passed over.
fn head(k: usize, a: usize, n: usize, r: usize) -> Leading
    requires { (n ≤ shots_most) × (r < choose (n - a) (k + 1)) }
    ensures { (result.number < n) × (result.rest < choose (n - 1 - result.number) k) × (set_by (k + 1) a (n - a) r ≡ result.number ∷ set_by k (result.number + 1) (n - 1 - result.number) result.rest) }
{
    let mut rest = r;
    for number in a..n {
        let begun = choose(n - 1 - number, k);
        if rest < begun {
            return Leading { number, rest };
        }
        rest -= begun;
    }
    unreachable!()
}

// The triple of rank r.
pub fn triple_at(n: usize, r: usize) -> Triple
    requires { (n ≤ shots_most) × (r < triple_count n) }
    ensures { result.i ∷ result.j ∷ result.k ∷ [] ≡ triple_at n r }
{
    let a = head(2, 0, n, r);
    let b = head(1, a.number + 1, n, a.rest);
    Triple {
        i: a.number,
        j: b.number,
        k: b.number + 1 + b.rest,
    }
}

// The triple after i < j < k: the last of its shots that can be greater is one greater, and those behind it follow at once.
pub fn next(n: usize, i: usize, j: usize, k: usize) -> Triple
    requires { (i < j) × (j < k) × (k < n) × (n ≤ shots_most) }
    ensures { result.i ∷ result.j ∷ result.k ∷ [] ≡ next_of n (i ∷ j ∷ k ∷ []) }
{
    if k + 1 < n {
        Triple { i, j, k: k + 1 }
    } else if j + 2 < n {
        Triple {
            i,
            j: j + 1,
            k: j + 2,
        }
    } else {
        Triple {
            i: i + 1,
            j: i + 2,
            k: i + 3,
        }
    }
}

// The rank of the triple i < j < k: all triples but those after it and itself.
// Not rank_in of their mask, which would have to be made to be taken apart again.
pub fn rank(n: usize, i: usize, j: usize, k: usize) -> usize
    requires { (i < j) × (j < k) × (k < n) × (n ≤ shots_most) }
    ensures { result ≡ rank_of n (i ∷ j ∷ k ∷ []) }
{
    let after = choose(n - 1 - i, 3) + choose(n - 1 - j, 2) + (n - 1 - k);
    count(n) - 1 - after
}

// How many pieces of so many shots n shots have.
pub fn piece_count(size: usize, n: usize) -> usize
    requires { n ≤ shots_most }
    ensures { result ≡ piece_count size n }
{
    choose(n, size)
}

// The piece of rank r, as a mask: its shots in order, each the first that some piece behind the ones passed over begins with.
pub fn piece_of(size: usize, n: usize, r: usize) -> u16
    requires { (n ≤ shots_most) × (r < piece_count size n) }
    ensures { result ≡ piece_of size n r }
{
    let mut x = 0;
    let mut a = 0;
    let mut rest = r;
    for left in (0..size).rev() {
        let first = head(left, a, n, rest);
        x = masks::with(x, first.number);
        a = first.number + 1;
        rest = first.rest;
    }
    x
}

// The rank of a piece: all pieces but those after it and itself. Those after it that begin with the same shots, and then with a later one, are the sets of the shots behind.
pub fn rank_in(size: usize, n: usize, x: u16) -> usize
    requires { (n ≤ shots_most) × Piece size n x }
    ensures { result ≡ rank_in size n (set_of n x) }
{
    let mut after = 0;
    let mut y = x;
    for left in (0..size).rev() {
        let i = masks::lowest(y);
        after += choose(n - 1 - i, left + 1);
        y = masks::without(y, i);
    }
    choose(n, size) - 1 - after
}
