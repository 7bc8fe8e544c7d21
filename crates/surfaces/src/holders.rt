// The triples by the shots that they hold, read from a table whose row k has those with shot k.
ghost use Rattle.std.specs.Prelude.{◌≡◌, ◌*◌, ◌<◌, ◌≤◌, length};
ghost use Rattle.shots.specs.Sizes.{shots_most};
ghost use Rattle.triples.specs.Sizes.{word_count};
ghost use Rattle.triples.specs.Sets.{words_of, holders_of, around_of, Holding};

use triples::{Triples, holding, rows};

// Such a table, of n shots.
#[derive(Clone, Copy)]
pub struct Holders<'a> {
    pub held: &'a [u64],
    pub n: usize,
    pub ghost few: { n ≤ shots_most },
    pub ghost room: { word_count * n ≤ length held.now },
    pub ghost holding: { Holding n held.now },
}

impl<'a> Holders<'a> {
    // The triples with shot k.
    pub fn row(self, k: usize) -> Triples
        requires { k < self.n }
        ensures { words_of result ≡ holders_of self.entry.n k }
    {
        rows::row_at(self.held, k)
    }

    // The triples of the list with every shot of the mask x.
    pub fn around(self, x: u16, list: Triples) -> Triples
        ensures { words_of result ≡ around_of self.entry.n x (words_of list) }
    {
        holding::around(self.held, self.n, x, list)
    }
}
