// The table of rows and the walk record over it.
ghost use Rattle.std.specs.Prelude.{◌≡◌, ◌*◌, ◌<◌, ◌≤◌};
ghost use Rattle.reach.specs.Walks.{rows_most, capacity_of, seen_in, store_of};
ghost use Rattle.circuits.specs.Sizes.{circuits_most};
ghost use Rattle.triples.specs.Sizes.{word_count};
ghost use Rattle.triples.specs.Sets.{words_of};
ghost use Rattle.walks.specs.Calls.{read_walk, made_landing, impossible_of};

use super::Walk;
use super::index::Rows;
use shots::Refusal;
use triples::{Triples, WORDS, rows};

// A walk uses at most this many rows.
pub const ROWS_MOST: usize = 65535;

// The whole rows of a table of so many words, at most ROWS_MOST.
pub fn capacity(words: usize) -> usize
    ensures { result ≡ capacity_of word_count words }
{
    (words / WORDS).min(ROWS_MOST)
}

// Whether no walk over so many rows and circuits has this record. The product is taken once the rows are known to be few.
pub fn impossible(capacity: usize, walk: Walk, count: usize) -> bool
    requires { (capacity ≤ rows_most) × (count ≤ circuits_most) }
    ensures { result ≡ impossible_of capacity walk count }
{
    walk.rows == 0 || capacity < walk.rows || walk.rows * count < walk.step
}

// A list that a flip found: a known one is passed over, a new one is written at the next row.
pub fn place(known: &mut Rows, list: Triples) -> Result<(), Refusal>
    requires { known.old.walk.step < rows_most * circuits_most }
    ensures same_reference { known.new.table.ghost_name ≡ known.old.table.ghost_name }
    ensures leaves { made_landing result known.new.walk known.new.table.now ≡ store_of word_count (seen_in word_count known.old.table.now known.old.walk.rows) known.old.table.now (read_walk known.old.walk) (words_of list) }
{
    if !known.seen(list) {
        if known.walk.rows == capacity(known.table.len()) {
            return Err(Refusal::Room);
        }
        rows::put_row(known.table, known.walk.rows, list);
        known.note(list);
    }
    known.walk.step += 1;
    Ok(())
}
