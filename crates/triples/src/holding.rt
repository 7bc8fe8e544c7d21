// Sets of triples by the shots that they hold, and by their size.
ghost use Rattle.std.specs.Prelude.{◌≡◌, [], ◌∷◌, ◌-◌, ◌*◌, ◌^◌, ◌≤◌, ◌<◌, length};
ghost use Rattle.algebra.specs.Words.{word_bits};
ghost use Rattle.algebra.specs.Sets.{is_on, bit};
ghost use Rattle.shots.specs.Sizes.{shots_most, mask_bits};
ghost use Rattle.triples.specs.Sizes.{word_count};
ghost use Rattle.triples.specs.Sets.{words_of, full_of, holders_of, around_of, size_of, Holding};

use super::ranks::Triple;
use super::{Triples, WORD_BITS, masks, ranks, rows, sets};

// The first k bits of a word.
fn ones(k: usize) -> u64
    requires { k ≤ word_bits }
    ensures { result ≡ 2 ^ k - 1 }
{
    if k == WORD_BITS {
        u64::MAX
    } else {
        (1 << k) - 1
    }
}

// Every triple of n shots, a word at a time.
pub fn full(n: usize) -> Triples
    requires { n ≤ shots_most }
    ensures { words_of result ≡ full_of n }
{
    let count = ranks::count(n);
    Triples {
        words: std::array::from_fn(|i| ones(count.saturating_sub(WORD_BITS * i).min(WORD_BITS))),
    }
}

// Whether shot x is one of three.
fn among(x: usize, i: usize, j: usize, k: usize) -> bool
    ensures { result ≡ is_on x (i ∷ j ∷ k ∷ []) }
{
    [i, j, k].contains(&x)
}

// The triples with shot k.
fn holders(n: usize, k: usize) -> Triples
    requires { n ≤ shots_most }
    ensures { words_of result ≡ holders_of n k }
{
    let mut t = sets::none();
    let mut s = Triple { i: 0, j: 1, k: 2 };
    for r in 0..ranks::count(n) {
        if among(k, s.i, s.j, s.k) {
            t = sets::with(t, r);
        }
        s = ranks::next(n, s.i, s.j, s.k);
    }
    t
}

// Row k: the triples with shot k.
pub fn fill(n: usize, held: &mut [u64])
    requires { (n ≤ shots_most) × (word_count * n ≤ length held.old) }
    ensures { (length held.new ≡ length held.old) × Holding n held.new }
{
    for k in 0..n {
        rows::put_row(held, k, holders(n, k));
    }
}

// Whether shot i is in the mask x.
pub fn on(x: u16, i: usize) -> bool
    requires { i < mask_bits }
    ensures { result ≡ bit x i }
{
    masks::has(x, i)
}

// The triples of the list that hold every shot of the mask x.
pub fn around(held: &[u64], n: usize, x: u16, list: Triples) -> Triples
    requires { (n ≤ shots_most) × (word_count * n ≤ length held.now) × Holding n held.now }
    ensures { words_of result ≡ around_of n x (words_of list) }
{
    let mut t = list;
    for k in 0..n {
        if on(x, k) {
            t = sets::both(t, rows::row_at(held, k));
        }
    }
    t
}

// How many triples of n shots the list has.
pub fn size(n: usize, list: Triples) -> usize
    requires { n ≤ shots_most }
    ensures { result ≡ size_of n (words_of list) }
{
    // No chain over all ranks: each surface of a walk is measured, and has few of them, so it goes from one that is in it to the next.
    let count = ranks::count(n);
    let mut k = 0;
    let mut r = sets::from(list, 0);
    while r < count {
        k += 1;
        r = sets::from(list, r + 1);
    }
    k
}
