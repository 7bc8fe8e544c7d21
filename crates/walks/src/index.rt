// The rows of a run, and which lists are among them: an index over the first of them. Rows of one place are linked, the last first; the rows behind those are looked through.
ghost use Rattle.std.specs.Prelude.{◌≡◌, ◌+◌, ◌<◌, ◌≤◌, ◌||◌, length};
ghost use Rattle.algebra.specs.Words.{row_of};
ghost use Rattle.reach.specs.Walks.{capacity_of, seen_in};
ghost use Rattle.triples.specs.Sizes.{word_count};
ghost use Rattle.triples.specs.Sets.{words_of};
ghost use Rattle.walks.specs.Index.{spots, spot_of, covered_of, noted_of, Indexed};

use super::Walk;
use triples::{Triples, rows};

// The places, and the rows that the index covers.
const SPOTS: usize = 1021;

const INDEXED_MOST: usize = 4096;

pub const INDEX: usize = SPOTS + INDEXED_MOST;

// The lent table, the walk record over it, and the index of the rows in use.
#[derive(Drop)]
pub struct Rows<'a> {
    pub table: &'a mut [u64],
    pub walk: Walk,
    pub index: [u16; INDEX],
    ghost fits: { walk.rows ≤ capacity_of word_count (length table.now) },
    ghost indexed: { Indexed table.now walk.rows index },
}

// The place of a list.
fn spot(list: Triples) -> usize
    ensures { (result ≡ spot_of (words_of list)) × (result < spots) }
{
    list.words
        .iter()
        .fold(0, |a, word| (a * 32 + word % SPOTS as u64) % SPOTS as u64) as usize
}

impl<'a> Rows<'a> {
    // The first rows of the table are put into an empty index. In its place: the value is too large to be moved from call to call.
    pub fn fill(&mut self, rows: usize)
        requires { (self.old.walk.rows ≡ 0) × (rows ≤ capacity_of word_count (length self.old.table.now)) }
        ensures same_reference { self.new.table.ghost_name ≡ self.old.table.ghost_name }
        ensures same_values { (self.new.table.now ≡ self.old.table.now) × (self.new.walk ≡ record { rows = rows; step = self.old.walk.step }) }
    {
        for p in 0..rows {
            self.note(self.row(p));
        }
    }

    // Row p of the table.
    pub fn row(&self, p: usize) -> Triples
        requires { p < capacity_of word_count (length self.now.table.now) }
        ensures { words_of result ≡ row_of word_count self.now.table.now p }
    {
        rows::row_at(self.table, p)
    }

    // The next row, the list, is put into the index.
    pub fn note(&mut self, list: Triples)
        requires { (self.old.walk.rows < capacity_of word_count (length self.old.table.now)) × (row_of word_count self.old.table.now self.old.walk.rows ≡ words_of list) }
        ensures same_reference { self.new.table.ghost_name ≡ self.old.table.ghost_name }
        ensures counted { (self.new.table.now ≡ self.old.table.now) × (self.new.walk ≡ record { rows = self.old.walk.rows + 1; step = self.old.walk.step }) }
        ensures noted { self.new.index ≡ noted_of self.old.index self.old.walk.rows (words_of list) }
    {
        let p = self.walk.rows;
        if p < INDEXED_MOST {
            let s = spot(list);
            let last = self.index[s];
            self.index[SPOTS + p] = last;
            self.index[s] = (p + 1) as u16;
        }
        self.walk.rows += 1;
    }

    // Whether the list is one of the rows that the index does not cover.
    fn behind(&self, list: Triples) -> bool
        ensures { seen_in word_count self.now.table.now self.now.walk.rows (words_of list) ≡ result || seen_in word_count self.now.table.now (covered_of self.now.walk.rows) (words_of list) }
    {
        (INDEXED_MOST..self.walk.rows)
            .rev()
            .any(|p| rows::is_row(self.table, p, list))
    }

    // Whether the list is one of the rows.
    pub fn seen(&self, list: Triples) -> bool
        ensures { result ≡ seen_in word_count self.now.table.now self.now.walk.rows (words_of list) }
    {
        if self.behind(list) {
            return true;
        }
        let mut next = usize::from(self.index[spot(list)]);
        // The rows of one place are linked, so there is no range to go over.
        while 0 < next {
            let p = next - 1;
            if rows::is_row(self.table, p, list) {
                return true;
            }
            next = usize::from(self.index[SPOTS + p]);
        }
        false
    }
}
