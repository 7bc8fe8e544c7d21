// Records: what goes into a store and comes out of it. Big-endian, the length first, two bytes that count what follows; then a version byte, 1.
// A patch: n, then x and y of each shot, four bytes each. A surface: n, t, then t triples of three bytes, in order.
//
//   read_patch       the shots of a patch record       5 6 1 5 2 3 4
//   write_patch      the bytes written                 1-4, 11
//   read_surface     the list of a surface record      1-4, 5 6 7 5 7 10 8 9
//   write_surface    the bytes written                 1-4, 7 10 8 9, 11
//
// Every call takes every input; specs/Calls.antt says what it answers and leaves, specs/Formats.antt what a record is, specs/Lines.antt when a call refuses.
#![tactic(auto)]

ghost use Rattle.std.specs.Prelude.{◌≡◌};
ghost use Rattle.triples.specs.Sets.{words_of};
ghost use Rattle.shots.specs.Refusals.{answer_of};
ghost use Rattle.shots.specs.Calls.{read_patch};
ghost use Rattle.records.specs.Calls.{left_in, read_patch_of, read_surface_of, write_patch_of, write_surface_of};

use shots::{Handed, Refusal};
use triples::Triples;

mod fields;
mod listed;
mod patches;

pub const VERSION: u8 = 1;

#[tactic(auto, using(crate::proofs::CallChains::patch_stops, crate::proofs::CallChains::patch_counted, crate::proofs::CallChains::coordinates_taken, crate::proofs::CallChains::patch_unplaced, crate::proofs::CallChains::patch_read))]
pub fn read_patch(bytes: &[u8]) -> Result<Handed, Refusal>
    ensures { read_patch result ≡ read_patch_of bytes.now }
{
    let count = patches::frame(bytes)?;
    let coordinates = patches::coordinates(bytes, count);
    shots::accept(&coordinates[..2 * count])?;
    Ok(Handed { count, coordinates })
}

#[tactic(auto, using(crate::proofs::CallChains::patch_unwritten, crate::proofs::CallChains::patch_short, crate::proofs::CallChains::patch_written, shots::proofs::Chains::run_accepted, shots::proofs::Patch::patch_few))]
pub fn write_patch(shots: &[i32], buffer: &mut [u8]) -> Result<usize, Refusal>
    ensures { left_in buffer.new result ≡ write_patch_of shots.now buffer.old }
{
    shots::accept(shots)?;
    let size = patches::size(shots.len() / 2);
    if buffer.len() < size {
        return Err(Refusal::Room);
    }
    patches::put(shots, buffer);
    Ok(size)
}

#[tactic(auto, using(crate::proofs::CallChains::surface_stops, crate::proofs::CallChains::surface_unread, crate::proofs::CallChains::surface_untested, crate::proofs::CallChains::surface_read, shots::proofs::Chains::run_accepted, shots::proofs::Patch::patch_few))]
pub fn read_surface(shots: &[i32], bytes: &[u8]) -> Result<Triples, Refusal>
    ensures { answer_of words_of result ≡ read_surface_of shots.now bytes.now }
{
    shots::accept(shots)?;
    // The list is taken out of what the reader hands back by `let .. else`, the form that document 01 names for this place.
    let read = listed::read(shots.len() / 2, bytes);
    let Ok(list) = read else {
        return read;
    };
    lists::test(shots, list)?;
    Ok(list)
}

#[tactic(auto, using(crate::proofs::CallChains::surface_unwritten, crate::proofs::CallChains::surface_short, crate::proofs::CallChains::surface_written, crate::proofs::CallChains::tested_few, crate::proofs::FormatLaws::size_few))]
pub fn write_surface(shots: &[i32], list: Triples, buffer: &mut [u8]) -> Result<usize, Refusal>
    ensures { left_in buffer.new result ≡ write_surface_of shots.now (words_of list) buffer.old }
{
    lists::test(shots, list)?;
    let n = shots.len() / 2;
    let t = triples::holding::size(n, list);
    let size = listed::size(t);
    if buffer.len() < size {
        return Err(Refusal::Room);
    }
    listed::put(n, list, t, buffer);
    Ok(size)
}
