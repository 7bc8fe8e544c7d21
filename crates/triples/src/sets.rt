// Sets of triples by their ranks. A set is its words: what is asked of one triple is asked of them as of any list of words (words), and two sets are taken together word by word.
ghost use Rattle.std.specs.Prelude.{◌≡◌, cond, ◌*◌, ◌<◌, get_or, set, replicate};
ghost use Rattle.algebra.specs.Words.{word_bits, set_bit, member, put_in, take_out, both_of, either_of, less_of, meets_of, inside_of, empty_of, alone_of};
ghost use Rattle.algebra.specs.Loops.{first_from};
ghost use Rattle.triples.specs.Sizes.{word_count};
ghost use Rattle.triples.specs.Sets.{words_of};

use super::{Triples, WORD_BITS, WORDS, words};

pub fn word(list: Triples, i: usize) -> u64
    requires { i < word_count }
    ensures { result ≡ get_or (words_of list) i 0 }
{
    list.words[i]
}

pub fn with_word(list: Triples, i: usize, x: u64) -> Triples
    requires { i < word_count }
    ensures { words_of result ≡ set (words_of list) i x }
{
    let mut t = list;
    t.words[i] = x;
    t
}

pub fn none() -> Triples
    ensures { words_of result ≡ replicate word_count 0 }
{
    Triples { words: [0; WORDS] }
}

// ---- one triple by its rank

pub fn has(list: Triples, r: usize) -> bool
    requires { r < word_bits * word_count }
    ensures { result ≡ member (words_of list) r }
{
    words::has(&list.words, r)
}

// A word, with bit k where that is asked for.
fn bit_where(here: bool, x: u64, k: usize) -> u64
    requires { k < word_bits }
    ensures { result ≡ cond here (set_bit x k) x }
{
    if here { x | (1 << k) } else { x }
}

// Not by words::set: a set whose words are taken by number stays in memory, and the loops over all ranks add to one at each turn.
pub fn with(list: Triples, r: usize) -> Triples
    requires { r < word_bits * word_count }
    ensures { words_of result ≡ put_in (words_of list) r }
{
    Triples {
        words: std::array::from_fn(|i| bit_where(i == r / WORD_BITS, list.words[i], r % WORD_BITS)),
    }
}

pub fn without(list: Triples, r: usize) -> Triples
    requires { r < word_bits * word_count }
    ensures { words_of result ≡ take_out (words_of list) r }
{
    let mut t = list;
    words::set(&mut t.words, r, false);
    t
}

// The least rank of the list from r on; past the last bit where there is none.
pub fn from(list: Triples, r: usize) -> usize
    ensures { result ≡ first_from r (word_bits * word_count) (member (words_of list)) }
{
    words::from(&list.words, r)
}

// ---- two sets

// What is in both.
pub fn both(a: Triples, b: Triples) -> Triples
    ensures { words_of result ≡ both_of (words_of a) (words_of b) }
{
    Triples {
        words: std::array::from_fn(|i| a.words[i] & b.words[i]),
    }
}

// What is in one of them.
pub fn either(a: Triples, b: Triples) -> Triples
    ensures { words_of result ≡ either_of (words_of a) (words_of b) }
{
    Triples {
        words: std::array::from_fn(|i| a.words[i] | b.words[i]),
    }
}

// What is in the first and not in the second.
pub fn less(a: Triples, b: Triples) -> Triples
    ensures { words_of result ≡ less_of (words_of a) (words_of b) }
{
    Triples {
        words: std::array::from_fn(|i| a.words[i] & !b.words[i]),
    }
}

// Whether a triple is in both.
pub fn meets(a: Triples, b: Triples) -> bool
    ensures { result ≡ meets_of (words_of a) (words_of b) }
{
    (0..WORDS).any(|i| a.words[i] & b.words[i] != 0)
}

// Whether every triple of the first is in the second.
pub fn inside(a: Triples, b: Triples) -> bool
    ensures { result ≡ inside_of (words_of a) (words_of b) }
{
    (0..WORDS).all(|i| a.words[i] & b.words[i] == a.words[i])
}

pub fn is_empty(a: Triples) -> bool
    ensures { result ≡ empty_of (words_of a) }
{
    a == none()
}

// Whether there is exactly one triple: a first one, and none behind it.
pub fn alone(a: Triples) -> bool
    ensures { result ≡ alone_of (words_of a) }
{
    let r = from(a, 0);
    r < WORD_BITS * WORDS && from(a, r + 1) == WORD_BITS * WORDS
}
