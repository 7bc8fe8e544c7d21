// Steps over what a run has worked out: the shots and the record are tested before, a lent row before its first circuit.
ghost use Rattle.std.specs.Prelude.{◌≡◌, ◌-◌, ◌*◌, ◌/◌, ◌%◌, ◌<◌, ◌≤◌, length};
ghost use Rattle.algebra.specs.Words.{row_of};
ghost use Rattle.reach.specs.Walks.{step_of, steps_of};
ghost use Rattle.circuits.specs.Numbering.{circuits_of};
ghost use Rattle.triples.specs.Sizes.{word_count};
ghost use Rattle.triples.specs.Sets.{words_of};
ghost use Rattle.lists.specs.Tests.{list_refusal_of};
ghost use Rattle.walks.specs.Calls.{ground_of, read_walk, made_landing, step_landing};
ghost use Rattle.walks.specs.Going.{Going, AtRow};

use super::index::Rows;
use super::{Progress, table};
use lists::kernel;
use ready::kernel::Ready;
use shots::Refusal;
use triples::{Triples, rows};

// One step along a row that is accepted, with circuit z.
fn one(
    shots: &[i32],
    ready: &Ready,
    known: &mut Rows,
    row: Triples,
    z: usize,
) -> Result<(), Refusal>
    requires { AtRow shots.now ready.now known.old.table.now (read_walk known.old.walk) (words_of row) × (z ≡ known.old.walk.step % length (circuits_of shots.now)) }
    ensures same_reference { known.new.table.ghost_name ≡ known.old.table.ghost_name }
    ensures leaves { made_landing result known.new.walk known.new.table.now ≡ step_of (ground_of shots.now) known.old.table.now (read_walk known.old.walk) }
{
    match ready::kernel::turn(shots, ready, row, z) {
        None => {
            known.walk.step += 1;
            Ok(())
        }
        Some(next) => table::place(known, next),
    }
}

// The next b steps, all of them along one row that is accepted.
fn along(
    shots: &[i32],
    ready: &Ready,
    known: &mut Rows,
    b: usize,
    row: Triples,
) -> Result<(), Refusal>
    requires { AtRow shots.now ready.now known.old.table.now (read_walk known.old.walk) (words_of row) × (b ≤ length (circuits_of shots.now) - known.old.walk.step % length (circuits_of shots.now)) }
    ensures same_reference { known.new.table.ghost_name ≡ known.old.table.ghost_name }
    ensures leaves { made_landing result known.new.walk known.new.table.now ≡ steps_of (ground_of shots.now) b known.old.table.now (read_walk known.old.walk) }
{
    let first = known.walk.step % ready.held.circuits.len();
    for z in first..first + b {
        one(shots, ready, known, row, z)?;
    }
    Ok(())
}

// The next b steps, row by row.
pub fn several(
    shots: &[i32],
    ready: &Ready,
    known: &mut Rows,
    b: usize,
) -> Result<Progress, Refusal>
    requires { Going shots.now ready.now known.old.table.now (read_walk known.old.walk) }
    ensures same_reference { known.new.table.ghost_name ≡ known.old.table.ghost_name }
    ensures leaves { step_landing result known.new.walk known.new.table.now ≡ steps_of (ground_of shots.now) b known.old.table.now (read_walk known.old.walk) }
{
    let count = ready.held.circuits.len();
    let lent = known.walk.rows;
    let mut left = b;
    // A round makes as many steps as its row has left, so it is no `for` over them.
    while 0 < left {
        if known.walk.step == known.walk.rows * count {
            return Ok(Progress::Done);
        }
        let p = known.walk.step / count;
        let row = known.row(p);
        // A row that the run wrote is accepted: it is a flip of an accepted one.
        if p < lent {
            kernel::accept(shots, &ready.held, row)?;
        }
        let turn = left.min(count - known.walk.step % count);
        along(shots, ready, known, turn, row)?;
        left -= turn;
    }
    Ok(Progress::Made)
}
