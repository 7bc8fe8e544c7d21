// Tables of sets: row p is the set in the words from WORDS * p on.
ghost use Rattle.std.specs.Prelude.{◌≡◌, ◌+◌, ◌*◌, ◌≤◌, length};
ghost use Rattle.algebra.specs.Sets.{same_list};
ghost use Rattle.algebra.specs.Words.{row_of, set_row};
ghost use Rattle.triples.specs.Sizes.{word_count};
ghost use Rattle.triples.specs.Sets.{words_of};

use super::{Triples, WORDS};

pub fn row_at(table: &[u64], p: usize) -> Triples
    requires { word_count * p + word_count ≤ length table.now }
    ensures { words_of result ≡ row_of word_count table.now p }
{
    // Not by read: a set that is copied into stays in memory, and the walk reads rows in its innermost loop.
    Triples {
        words: std::array::from_fn(|i| table[WORDS * p + i]),
    }
}

pub fn put_row(table: &mut [u64], p: usize, list: Triples)
    requires { word_count * p + word_count ≤ length table.old }
    ensures { table.new ≡ set_row table.old p (words_of list) }
{
    write(table, p, &list.words);
}

// Whether row p is the list.
pub fn is_row(table: &[u64], p: usize, list: Triples) -> bool
    requires { word_count * p + word_count ≤ length table.now }
    ensures { result ≡ same_list (row_of word_count table.now p) (words_of list) }
{
    same(table, p, &list.words)
}

// ---- rows of any length

// Row p of a table of rows as long as the lent one.
pub fn read(table: &[u64], p: usize, row: &mut [u64])
    requires { length row.old * p + length row.old ≤ length table.now }
    ensures { row.new ≡ row_of (length row.old) table.now p }
{
    let begin = row.len() * p;
    row.copy_from_slice(&table[begin..begin + row.len()]);
}

pub fn write(table: &mut [u64], p: usize, row: &[u64])
    requires { length row.now * p + length row.now ≤ length table.old }
    ensures { table.new ≡ set_row table.old p row.now }
{
    let begin = row.len() * p;
    table[begin..begin + row.len()].copy_from_slice(row);
}

// Whether row p is the lent one.
pub fn same(table: &[u64], p: usize, row: &[u64]) -> bool
    requires { length row.now * p + length row.now ≤ length table.now }
    ensures { result ≡ same_list (row_of (length row.now) table.now p) row.now }
{
    let begin = row.len() * p;
    &table[begin..begin + row.len()] == row
}
