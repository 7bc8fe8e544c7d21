// Report: the report of one patch record, line by line. It has no call of its own; `patchwalk` uses its parts, and prints the report part by part.
#![tactic(auto)]

pub mod lines;
pub mod walked;

// The walk goes on in a table of so many rows.
pub const TABLE_ROWS: usize = 4096;

pub const TABLE_WORDS: usize = triples::WORDS * TABLE_ROWS;

// More steps than a walk can take in any table.
pub const STEPS_MOST: usize = walks::ROWS_MOST * circuits::CIRCUITS_MOST + 1;

// So many lines are printed at a time; they have room here.
pub const PART_LINES: usize = 64;

pub const PART_MOST: usize = PART_LINES * text::LINE_MOST;

// Where the walk ended, and whether it is complete; where it is not, the table is full.
#[derive(Clone, Copy)]
pub struct Shown {
    pub walk: walks::Walk,
    pub complete: bool,
}
