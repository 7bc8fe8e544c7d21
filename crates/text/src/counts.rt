// What the lines tell of a list: the shots that it uses. Its double area is summed in surfaces.
ghost use Rattle.std.specs.Prelude.{◌≡◌, ◌*◌, ◌≤◌, length};
ghost use Rattle.shots.specs.Sizes.{shots_most};
ghost use Rattle.triples.specs.Sizes.{word_count};
ghost use Rattle.triples.specs.Sets.{words_of, Holding};
ghost use Rattle.text.specs.Lines.{used_of};

use triples::{Triples, rows, sets};

// How many of n shots the list uses; row k of held has the triples with shot k.
pub fn used(held: &[u64], n: usize, list: Triples) -> usize
    requires { (n ≤ shots_most) × (word_count * n ≤ length held.now) × Holding n held.now }
    ensures { (result ≡ used_of n (words_of list)) × (result ≤ n) }
{
    (0..n)
        .filter(|k| sets::meets(list, rows::row_at(held, *k)))
        .count()
}
