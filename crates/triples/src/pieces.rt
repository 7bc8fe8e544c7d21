// The pieces of a list as masks of shots: all that is asked of a list is asked of them.
ghost use Rattle.std.specs.Prelude.{◌≡◌, ◌*◌, ◌^◌, ◌≤◌, ◌<◌, length, take};
ghost use Rattle.algebra.specs.Words.{word_bits};
ghost use Rattle.shots.specs.Sizes.{shots_most, mask_bits};
ghost use Rattle.triples.specs.Ranks.{piece_count};
ghost use Rattle.triples.specs.Pieces.{pieces_in, holder_count, is_face, InRankOrder};

use super::{masks, ranks, words};

// Place r: the piece of rank r.
pub fn all(size: usize, n: usize, out: &mut [u16])
    requires { (n ≤ shots_most) × (piece_count size n ≤ length out.old) }
    ensures { (length out.new ≡ length out.old) × InRankOrder size n out.new }
{
    for r in 0..ranks::piece_count(size, n) {
        out[r] = ranks::piece_of(size, n, r);
    }
}

// The pieces of the list, in the order of their ranks, at the front of out; how many they are.
pub fn fill(size: usize, n: usize, all: &[u16], list: &[u64], out: &mut [u16]) -> usize
    requires { (n ≤ shots_most) × (piece_count size n ≤ length all.now) × InRankOrder size n all.now × (piece_count size n ≤ word_bits * length list.now) × (word_bits * length list.now < 2 ^ word_bits) × (piece_count size n ≤ length out.old) }
    ensures { (length out.new ≡ length out.old) × (result ≤ piece_count size n) × (take result out.new ≡ pieces_in size n list.now) }
{
    let count = ranks::piece_count(size, n);
    let mut t = 0;
    // No `for`: the next rank of the list is found a word at a time.
    let mut r = words::from(list, 0);
    while r < count {
        out[t] = all[r];
        t += 1;
        r = words::from(list, r + 1);
    }
    t
}

// How many of the pieces hold every shot of the mask x. The whole run is looked at, in so few bits, so that many pieces can be looked at at once.
pub fn holders(pieces: &[u16], x: u16) -> u16
    requires { length pieces.now < 2 ^ mask_bits }
    ensures { result ≡ holder_count pieces.now x }
{
    pieces.iter().map(|p| u16::from(masks::holds(x, *p))).sum()
}

// Whether some piece does.
pub fn is_face(pieces: &[u16], x: u16) -> bool
    requires { length pieces.now < 2 ^ mask_bits }
    ensures { result ≡ is_face pieces.now x }
{
    0 < holders(pieces, x)
}
