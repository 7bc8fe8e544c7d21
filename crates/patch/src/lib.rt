// Patch: what an app links, the calls of the rooms under C names, over lent memory. include/patch.h is this interface for C.
//
// A call returns one number: 0, or the number that refuses it. What it gives it writes to a place that the caller lends; a refused call leaves every lent place as it was.
//
//   patch_accept           is the run a patch?                               1 2 3 4
//   patch_orientation      the double area of three shots, with its sign     1-4, 7
//   patch_double_area      its size                                          1-4, 7
//   patch_cocircuit        its sign, for a pair with every shot              1-4, 7
//   patch_border           the number of sides                               1-4
//   patch_chains           the corners, as a south and a north chain         1-4, 11
//   patch_take_runs        the shots of a controller, as coordinates         17, 1, each shot's 16 or 2, 3 4
//   patch_circuits         C, the number of circuits                         1-4
//   patch_circuit          the two sides of circuit z                        1-4, 12
//   patch_test             is the list a triangulation?                      1-4, 7 10 8 9
//   patch_placing          the placing surface                               1-4
//   patch_flip             the list flipped along circuit z, in its place    1-4, 7 10 8 9, 12 13
//   patch_start            a walk begins at the list                         1-4, 7 10 8 9, 11
//   patch_step, patch_run  the next step, the next steps                     1-4, 15, the row's 7 10 8 9, 11
//   patch_read_patch       the shots of a patch record                       5 6 1 5 2 3 4
//   patch_write_patch      the record of a patch                             1-4, 11
//   patch_read_surface     the list of a surface record                      1-4, 5 6 7 5 7 10 8 9
//   patch_write_surface    the record of a list                              1-4, 7 10 8 9, 11
//
// Every call takes every input. Its contract is an equation with the definition of the room's call; specs/Returns.antt says how an answer becomes a number and what is left.
#![tactic(auto)]

ghost use Rattle.std.specs.Prelude.{◌≡◌};
ghost use Rattle.shots.specs.Calls.{accept_of, orientation_of, double_area_of, cocircuit_of, border_call_of};
ghost use Rattle.outline.specs.Calls.{chains_of};
ghost use Rattle.intake.specs.Calls.{take_runs_of};
ghost use Rattle.circuits.specs.Calls.{count_call_of, circuit_call_of};
ghost use Rattle.lists.specs.Calls.{test_of};
ghost use Rattle.surfaces.specs.Calls.{placing_of, flip_of};
ghost use Rattle.walks.specs.Calls.{step_call_of, run_call_of};
ghost use Rattle.records.specs.Calls.{read_patch_of, write_patch_of, read_surface_of, write_surface_of};
ghost use Rattle.patch.specs.Returns.{number_of, left_at, beside_at, south_at, north_at, plus_at, minus_at, done_at, left_by, left_of, start_called, done_flag};

use shots::{COORDINATES_MOST, SHOTS_MOST};
use triples::{Triples, WORDS};
use walks::{Progress, Walk};

mod returns;

use returns::{handed, listed, told};

// ---- shots

#[unsafe(no_mangle)]
pub extern "C" fn patch_accept(shots: &[i32]) -> u8
    ensures { result ≡ number_of (accept_of shots.now) }
{
    told(shots::accept(shots), &mut ())
}

#[unsafe(no_mangle)]
pub extern "C" fn patch_orientation(
    shots: &[i32],
    a: usize,
    b: usize,
    c: usize,
    signed: &mut i64,
) -> u8
    ensures { (result ≡ number_of (orientation_of shots.now a b c)) × (signed.new ≡ left_at signed.old (orientation_of shots.now a b c)) }
{
    told(shots::orientation(shots, a, b, c), signed)
}

#[unsafe(no_mangle)]
pub extern "C" fn patch_double_area(
    shots: &[i32],
    a: usize,
    b: usize,
    c: usize,
    area: &mut u64,
) -> u8
    ensures { (result ≡ number_of (double_area_of shots.now a b c)) × (area.new ≡ left_at area.old (double_area_of shots.now a b c)) }
{
    told(shots::double_area(shots, a, b, c), area)
}

#[unsafe(no_mangle)]
pub extern "C" fn patch_cocircuit(
    shots: &[i32],
    i: usize,
    j: usize,
    signs: &mut [i8; SHOTS_MOST],
) -> u8
    ensures { (result ≡ number_of (cocircuit_of shots.now i j).answer) × (signs.new ≡ beside_at signs.old (cocircuit_of shots.now i j).answer (cocircuit_of shots.now i j).signs) }
{
    told(shots::cocircuit(shots, i, j), signs)
}

#[unsafe(no_mangle)]
pub extern "C" fn patch_border(shots: &[i32], count: &mut usize) -> u8
    ensures { (result ≡ number_of (border_call_of shots.now)) × (count.new ≡ left_at count.old (border_call_of shots.now)) }
{
    told(shots::border(shots), count)
}

// ---- outline

#[unsafe(no_mangle)]
pub extern "C" fn patch_chains(
    shots: &[i32],
    south: &mut [u8],
    north: &mut [u8],
    south_length: &mut usize,
    north_length: &mut usize,
) -> u8
    ensures { (result ≡ number_of (chains_of shots.now south.old north.old).answer) × (south.new ≡ (chains_of shots.now south.old north.old).south) × (north.new ≡ (chains_of shots.now south.old north.old).north) × (south_length.new ≡ south_at south_length.old (chains_of shots.now south.old north.old).answer) × (north_length.new ≡ north_at north_length.old (chains_of shots.now south.old north.old).answer) }
{
    match outline::chains(shots, south, north) {
        Ok(lengths) => {
            *south_length = lengths.south;
            *north_length = lengths.north;
            0
        }
        Err(refusal) => u8::from(refusal),
    }
}

// ---- intake

#[unsafe(no_mangle)]
pub extern "C" fn patch_take_runs(
    edition: usize,
    units: &[u8],
    values: &[f64],
    shots: &mut [i32; COORDINATES_MOST],
    count: &mut usize,
) -> u8
    ensures { (result ≡ number_of (take_runs_of edition units.now values.now).answer) × (shots.new ≡ beside_at shots.old (take_runs_of edition units.now values.now).answer (take_runs_of edition units.now values.now).coordinates) × (count.new ≡ left_at count.old (take_runs_of edition units.now values.now).answer) }
{
    handed(intake::take_runs(edition, units, values), shots, count)
}

// ---- circuits

#[unsafe(no_mangle)]
pub extern "C" fn patch_circuits(shots: &[i32], count: &mut usize) -> u8
    ensures { (result ≡ number_of (count_call_of shots.now)) × (count.new ≡ left_at count.old (count_call_of shots.now)) }
{
    told(circuits::count(shots), count)
}

#[unsafe(no_mangle)]
pub extern "C" fn patch_circuit(shots: &[i32], z: usize, plus: &mut u16, minus: &mut u16) -> u8
    ensures { (result ≡ number_of (circuit_call_of shots.now z)) × (plus.new ≡ plus_at plus.old (circuit_call_of shots.now z)) × (minus.new ≡ minus_at minus.old (circuit_call_of shots.now z)) }
{
    match circuits::circuit(shots, z) {
        Ok(sides) => {
            *plus = sides.plus;
            *minus = sides.minus;
            0
        }
        Err(refusal) => u8::from(refusal),
    }
}

// ---- lists and surfaces

#[unsafe(no_mangle)]
pub extern "C" fn patch_test(shots: &[i32], list: &[u64; WORDS]) -> u8
    ensures { result ≡ number_of (test_of shots.now list.now) }
{
    told(lists::test(shots, Triples { words: *list }), &mut ())
}

#[unsafe(no_mangle)]
pub extern "C" fn patch_placing(shots: &[i32], list: &mut [u64; WORDS]) -> u8
    ensures { (result ≡ number_of (placing_of shots.now)) × (list.new ≡ left_at list.old (placing_of shots.now)) }
{
    listed(surfaces::placing(shots), list)
}

#[unsafe(no_mangle)]
pub extern "C" fn patch_flip(shots: &[i32], list: &mut [u64; WORDS], z: usize) -> u8
    ensures { (result ≡ number_of (flip_of shots.now list.old z)) × (list.new ≡ left_at list.old (flip_of shots.now list.old z)) }
{
    let before = Triples { words: *list };
    listed(surfaces::flip(shots, before, z), list)
}

// ---- the walk

// 1 where the walk is done, 0 where it goes on.
fn is_done(progress: Progress) -> u8
    ensures { result ≡ done_flag progress }
{
    u8::from(progress == Progress::Done)
}

#[unsafe(no_mangle)]
pub extern "C" fn patch_start(
    shots: &[i32],
    list: &[u64; WORDS],
    table: &mut [u64],
    walk: &mut Walk,
) -> u8
    ensures { left_by result walk.new table.new ≡ left_of (start_called shots.now list.now table.old walk.old) }
{
    let first = Triples { words: *list };
    told(walks::start(shots, first, table, walk), &mut ())
}

#[unsafe(no_mangle)]
pub extern "C" fn patch_step(shots: &[i32], table: &mut [u64], walk: &mut Walk, done: &mut u8) -> u8
    ensures { (left_by result walk.new table.new ≡ left_of (step_call_of shots.now table.old walk.old)) × (done.new ≡ done_at done.old (step_call_of shots.now table.old walk.old).answer) }
{
    told(walks::step(shots, table, walk).map(is_done), done)
}

#[unsafe(no_mangle)]
pub extern "C" fn patch_run(
    shots: &[i32],
    table: &mut [u64],
    walk: &mut Walk,
    b: usize,
    done: &mut u8,
) -> u8
    ensures { (left_by result walk.new table.new ≡ left_of (run_call_of shots.now table.old walk.old b)) × (done.new ≡ done_at done.old (run_call_of shots.now table.old walk.old b).answer) }
{
    told(walks::run(shots, table, walk, b).map(is_done), done)
}

// ---- records

#[unsafe(no_mangle)]
pub extern "C" fn patch_read_patch(
    bytes: &[u8],
    shots: &mut [i32; COORDINATES_MOST],
    count: &mut usize,
) -> u8
    ensures { (result ≡ number_of (read_patch_of bytes.now).answer) × (shots.new ≡ beside_at shots.old (read_patch_of bytes.now).answer (read_patch_of bytes.now).coordinates) × (count.new ≡ left_at count.old (read_patch_of bytes.now).answer) }
{
    handed(records::read_patch(bytes), shots, count)
}

#[unsafe(no_mangle)]
pub extern "C" fn patch_write_patch(shots: &[i32], buffer: &mut [u8], written: &mut usize) -> u8
    ensures { (result ≡ number_of (write_patch_of shots.now buffer.old).answer) × (buffer.new ≡ (write_patch_of shots.now buffer.old).buffer) × (written.new ≡ left_at written.old (write_patch_of shots.now buffer.old).answer) }
{
    told(records::write_patch(shots, buffer), written)
}

#[unsafe(no_mangle)]
pub extern "C" fn patch_read_surface(shots: &[i32], bytes: &[u8], list: &mut [u64; WORDS]) -> u8
    ensures { (result ≡ number_of (read_surface_of shots.now bytes.now)) × (list.new ≡ left_at list.old (read_surface_of shots.now bytes.now)) }
{
    listed(records::read_surface(shots, bytes), list)
}

#[unsafe(no_mangle)]
pub extern "C" fn patch_write_surface(
    shots: &[i32],
    list: &[u64; WORDS],
    buffer: &mut [u8],
    written: &mut usize,
) -> u8
    ensures { (result ≡ number_of (write_surface_of shots.now list.now buffer.old).answer) × (buffer.new ≡ (write_surface_of shots.now list.now buffer.old).buffer) × (written.new ≡ left_at written.old (write_surface_of shots.now list.now buffer.old).answer) }
{
    let list = Triples { words: *list };
    told(records::write_surface(shots, list, buffer), written)
}
