// The lines of a report, by what is known after the walk.
ghost use Rattle.std.specs.Prelude.{◌≡◌, ℕ, ◌++◌, ◌+◌, ◌-◌, ◌*◌, ◌<◌, ◌≤◌, IfOk, List, length};
ghost use Rattle.arrayvec.specs.ArrayString.{array_string_len};
ghost use Rattle.algebra.specs.Loops.{over};
ghost use Rattle.shots.specs.Patch.{count_of};
ghost use Rattle.shots.specs.Tests.{refusal_of};
ghost use Rattle.triples.specs.Sizes.{word_count};
ghost use Rattle.triples.specs.Sets.{words_of, Holding};
ghost use Rattle.records.specs.Reading.{coordinates_of};
ghost use Rattle.text.specs.Sizes.{line_most};
ghost use Rattle.report.specs.Sizes.{table_rows, table_words, part_lines};
ghost use Rattle.report.specs.Report.{ended_in, first_line, read_found, find_of, line_count, shown_line, line_of};

use super::{PART_MOST, Shown, TABLE_WORDS};
use arrayvec::ArrayString;
use shots::Refusal;
use triples::{Triples, holding, rows};

// The words of the sets that the shots hold.
const HOLDING_WORDS: usize = triples::WORDS * shots::SHOTS_MOST;

// How many lines there are.
pub fn count(found: Result<Shown, Refusal>) -> usize
    requires { IfOk found (λ s. s.walk.rows ≤ table_rows) }
    ensures { (t : List ℕ) → result ≡ line_count (read_found found t) }
{
    match found {
        Ok(ended) => ended.walk.rows + 2,
        Err(_) => 1,
    }
}

// The first line of a patch whose first row is the list.
#[tactic(auto, using(shots::proofs::Patch::patch_near, shots::proofs::Patch::patch_few), unfolding(crate::specs::Report::first_line))]
fn first<const N: usize>(out: &mut ArrayString<N>, shots: &[i32], list: Triples)
    requires { (refusal_of shots.now ≡ 0) × (array_string_len out.old + line_most ≤ N) }
    ensures text { out.new.bytes ≡ out.old.bytes ++ first_line shots.now (words_of list) }
    ensures len { array_string_len out.new ≤ array_string_len out.old + line_most }
{
    let count = circuits::kernel::all(shots).len();
    let border = shots::pairs::side_count(shots);
    let area = surfaces::areas::sum(shots, list);
    text::lines::patch(out, shots.len() / 2, count, border, area);
}

// Line i of the report of an accepted patch whose surfaces are shown.
#[tactic(auto, using(shots::proofs::Patch::patch_few, crate::proofs::LineLaws::line_first, crate::proofs::LineLaws::line_last, crate::proofs::LineLaws::line_row), unfolding(crate::specs::Report::line_at))]
fn shown<const N: usize>(
    out: &mut ArrayString<N>,
    shots: &[i32],
    held: &[u64],
    table: &[u64],
    ended: Shown,
    i: usize,
)
    requires { (refusal_of shots.now ≡ 0) × (word_count * count_of shots.now ≤ length held.now) × Holding (count_of shots.now) held.now × (length table.now ≡ table_words) × (ended.walk.rows ≤ table_rows) × (i < ended.walk.rows + 2) × (array_string_len out.old + line_most ≤ N) }
    ensures text { out.new.bytes ≡ out.old.bytes ++ shown_line shots.now (ended_in table.now ended.walk) ended.complete i }
    ensures len { array_string_len out.new ≤ array_string_len out.old + line_most }
{
    let walk = ended.walk;
    if i == 0 {
        first(out, shots, rows::row_at(table, 0));
    } else if i == walk.rows + 1 {
        text::lines::last(out, ended.complete, walk.rows, walk.step);
    } else {
        let row = rows::row_at(table, i - 1);
        text::lines::row(out, held, shots.len() / 2, i - 1, row);
    }
}

// The lines from one to another, of an accepted patch whose surfaces are shown.
#[tactic(auto, using(shots::proofs::Patch::patch_few, text::proofs::PartLaws::behind_none, text::proofs::PartLaws::behind_next))]
fn from_to<const N: usize>(
    out: &mut ArrayString<N>,
    shots: &[i32],
    table: &[u64],
    ended: Shown,
    from: usize,
    to: usize,
)
    requires { (refusal_of shots.now ≡ 0) × (length table.now ≡ table_words) × (ended.walk.rows ≤ table_rows) × (from ≤ to) × (to ≤ ended.walk.rows + 2) × (array_string_len out.old + (to - from) * line_most ≤ N) }
    ensures { out.new.bytes ≡ out.old.bytes ++ over (shown_line shots.now (ended_in table.now ended.walk) ended.complete) from to }
{
    let mut held = [0u64; HOLDING_WORDS];
    holding::fill(shots.len() / 2, &mut held);
    for i in from..to {
        shown(out, shots, &held, table, ended, i);
    }
}

// The lines from one to another, and nothing else.
pub fn part(
    bytes: &[u8],
    table: &[u64; TABLE_WORDS],
    found: Result<Shown, Refusal>,
    from: usize,
    to: usize,
    out: &mut ArrayString<PART_MOST>,
)
    requires { (read_found found table.now ≡ find_of bytes.now) × (from < to) × (to ≤ line_count (find_of bytes.now)) × (to - from ≤ part_lines) }
    ensures { out.new.bytes ≡ over (line_of (coordinates_of bytes.now) (find_of bytes.now)) from to }
{
    out.clear();
    match found {
        Ok(ended) => {
            // The record was read before, since there is something to show; so it is read again.
            if let Ok(patch) = records::read_patch(bytes) {
                let shots = &patch.coordinates[..2 * patch.count];
                from_to(out, shots, table, ended, from, to);
            }
        }
        Err(refusal) => text::lines::refused(out, u8::from(refusal)),
    }
}
