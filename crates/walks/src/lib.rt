// Walks: all surfaces that are reached from one by flips, listed in a lent table, with a record that the caller keeps between calls.
//
//   start    started                 1-4, 7 10 8 9, 11
//   step     made, done              1-4, 15, the row's 7 10 8 9, 11
//   run      made, done              as a step
//
// Every call takes every input; specs/Calls.antt says what it answers and leaves, specs/Lines.antt when it refuses, specs/Demand.antt what a walk lists.
#![tactic(auto)]

ghost use Rattle.std.specs.Prelude.{◌≡◌};
ghost use Rattle.walks.specs.Calls.{start_landing, step_landing, start_call_of, step_call_of, run_call_of};

use arrayvec::ArrayVec;
use index::{INDEX, Rows};
use lists::HELD_WORDS;
use lists::kernel::Held;
use ready::kernel::Ready;
use shots::Refusal;
use triples::{Triples, rows};

mod index;
mod steps;
mod table;

pub use table::ROWS_MOST;

// The walk record: how many rows of the table are in use, and the number of the next step.
#[repr(C)]
#[derive(Clone, Copy)]
pub struct Walk {
    pub rows: usize,
    pub step: usize,
}

/// What a step or a run answers that is not refused: it made what was asked, or the walk is at its end.
#[derive(Clone, Copy, Debug, PartialEq, Eq)]
pub enum Progress {
    Made,
    Done,
}

#[tactic(auto, using(reach::proofs::StepLaws::start_full, reach::proofs::StepLaws::start_writes))]
pub fn start(
    shots: &[i32],
    list: Triples,
    table: &mut [u64],
    walk: &mut Walk,
) -> Result<(), Refusal>
    ensures { start_landing result walk.new table.new ≡ start_call_of shots.now list table.old walk.old }
{
    lists::test(shots, list)?;
    if table::capacity(table.len()) == 0 {
        return Err(Refusal::Room);
    }
    rows::put_row(table, 0, list);
    *walk = Walk { rows: 1, step: 0 };
    Ok(())
}

// A step is a run of one.
#[tactic(auto, using(reach::proofs::RunLaws::run_one))]
pub fn step(shots: &[i32], table: &mut [u64], walk: &mut Walk) -> Result<Progress, Refusal>
    ensures { step_landing result walk.new table.new ≡ step_call_of shots.now table.old walk.old }
{
    run(shots, table, walk, 1)
}

pub fn run(shots: &[i32], table: &mut [u64], walk: &mut Walk, b: usize) -> Result<Progress, Refusal>
    ensures { step_landing result walk.new table.new ≡ run_call_of shots.now table.old walk.old b }
{
    shots::accept(shots)?;
    let mut ready = Ready {
        held: Held {
            circuits: ArrayVec::new(),
            rows: [0; HELD_WORDS],
        },
        stars: ArrayVec::new(),
    };
    ready::kernel::prepare(shots, &mut ready);
    if table::impossible(
        table::capacity(table.len()),
        *walk,
        ready.held.circuits.len(),
    ) {
        return Err(Refusal::Walk);
    }
    let mut known = Rows {
        table,
        walk: Walk {
            rows: 0,
            step: walk.step,
        },
        index: [0; INDEX],
    };
    known.fill(walk.rows);
    let answer = steps::several(shots, &ready, &mut known, b);
    *walk = known.walk;
    answer
}

// The same with the record by value, for a program that keeps it in a local: how it stands at the end is handed back beside the answer. README names the three, so they stay beside those that change it in place.
pub fn start_at(
    shots: &[i32],
    list: Triples,
    table: &mut [u64],
    walk: Walk,
) -> (Result<(), Refusal>, Walk)
    ensures { start_landing result.0 result.1 table.new ≡ start_call_of shots.now list table.old walk }
{
    let mut walk = walk;
    let answer = start(shots, list, table, &mut walk);
    (answer, walk)
}

pub fn step_at(shots: &[i32], table: &mut [u64], walk: Walk) -> (Result<Progress, Refusal>, Walk)
    ensures { step_landing result.0 result.1 table.new ≡ step_call_of shots.now table.old walk }
{
    let mut walk = walk;
    let answer = step(shots, table, &mut walk);
    (answer, walk)
}

pub fn run_at(
    shots: &[i32],
    table: &mut [u64],
    walk: Walk,
    b: usize,
) -> (Result<Progress, Refusal>, Walk)
    ensures { step_landing result.0 result.1 table.new ≡ run_call_of shots.now table.old walk b }
{
    let mut walk = walk;
    let answer = run(shots, table, &mut walk, b);
    (answer, walk)
}
