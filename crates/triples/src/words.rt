// Sets by ranks, in as many words as are lent: one rank by shift and mask.
ghost use Rattle.std.specs.Prelude.{◌≡◌, cond, ◌*◌, ◌^◌, ◌<◌, length};
ghost use Rattle.algebra.specs.Words.{word_bits, member, put_in, take_out};
ghost use Rattle.algebra.specs.Loops.{first_from};
ghost use Rattle.triples.specs.Sizes.{word_count};
ghost use Rattle.triples.specs.Sets.{words_of};

use super::{Triples, WORD_BITS, WORDS, rows};

pub fn has(list: &[u64], r: usize) -> bool
    requires { r < word_bits * length list.now }
    ensures { result ≡ member list.now r }
{
    (list[r / WORD_BITS] >> (r % WORD_BITS)) & 1 == 1
}

// Rank r comes in, or goes out.
pub fn set(list: &mut [u64], r: usize, inward: bool)
    requires { r < word_bits * length list.old }
    ensures { list.new ≡ cond inward (put_in list.old r) (take_out list.old r) }
{
    let q = r / WORD_BITS;
    let one = 1 << (r % WORD_BITS);
    if inward {
        list[q] |= one;
    } else {
        list[q] &= !one;
    }
}

// The least rank of the list from r on; past the last bit where there is none.
pub fn from(list: &[u64], r: usize) -> usize
    requires { word_bits * length list.now < 2 ^ word_bits }
    ensures { result ≡ first_from r (word_bits * length list.now) (member list.now) }
{
    for i in r / WORD_BITS..list.len() {
        let first = r.max(WORD_BITS * i);
        let rest = list[i] >> (first - WORD_BITS * i);
        if rest != 0 {
            return first + rest.trailing_zeros() as usize;
        }
    }
    WORD_BITS * list.len()
}

// The words of a list that a call takes.
pub fn spread(list: Triples) -> [u64; WORDS]
    ensures { result ≡ words_of list }
{
    list.words
}

// The list that an answer carries, of its words.
pub fn gathered(words: &[u64]) -> Triples
    requires { length words.now ≡ word_count }
    ensures { words_of result ≡ words.now }
{
    rows::row_at(words, 0)
}
