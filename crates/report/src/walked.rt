// The walk over the patch that a record holds.
ghost use Rattle.std.specs.Prelude.{◌≡◌, replicate};
ghost use Rattle.algebra.specs.Answer.{gives};
ghost use Rattle.shots.specs.Tests.{refusal_of};
ghost use Rattle.triples.specs.Sets.{words_of};
ghost use Rattle.lists.specs.Calls.{test_of};
ghost use Rattle.surfaces.specs.Calls.{placing_of};
ghost use Rattle.report.specs.Sizes.{table_words};
ghost use Rattle.report.specs.Report.{read_found, walk_find, placed_find, find_of};

use super::{STEPS_MOST, Shown, TABLE_WORDS};
use shots::Refusal;
use triples::Triples;
use walks::Walk;

// The walk from the list. It ends at its end, or where the table is full, which is no refusal here; nothing else refuses it.
fn from(shots: &[i32], list: Triples, table: &mut [u64]) -> Result<Shown, Refusal>
    requires { (refusal_of shots.now ≡ 0) × (test_of shots.now (words_of list) ≡ gives tt) × (table.old ≡ replicate table_words 0) }
    ensures { read_found result table.new ≡ walk_find shots.now (words_of list) }
{
    let mut walk = Walk { rows: 0, step: 0 };
    walks::start(shots, list, table, &mut walk)?;
    let complete = walks::run(shots, table, &mut walk, STEPS_MOST).is_ok();
    Ok(Shown { walk, complete })
}

// The walk from the placing surface of an accepted patch.
fn of_patch(shots: &[i32], table: &mut [u64]) -> Result<Shown, Refusal>
    requires { (refusal_of shots.now ≡ 0) × (table.old ≡ replicate table_words 0) }
    ensures { read_found result table.new ≡ placed_find shots.now (placing_of shots.now) }
{
    let list = surfaces::placing(shots)?;
    from(shots, list, table)
}

// The walk over the patch of a record.
pub fn find(bytes: &[u8], table: &mut [u64; TABLE_WORDS]) -> Result<Shown, Refusal>
    requires { table.old ≡ replicate table_words 0 }
    ensures { read_found result table.new ≡ find_of bytes.now }
{
    let patch = records::read_patch(bytes)?;
    of_patch(&patch.coordinates[..2 * patch.count], table)
}
