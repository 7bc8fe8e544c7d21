// The parts of a patch record.
ghost use Rattle.std.specs.Prelude.{◌≡◌, ◌+◌, ◌*◌, ◌≤◌, length, get_or, replicate, pos};
ghost use Rattle.algebra.specs.Answer.{chain};
ghost use Rattle.algebra.specs.Loops.{over};
ghost use Rattle.algebra.specs.Writing.{wrote};
ghost use Rattle.shots.specs.Patch.{count_of};
ghost use Rattle.shots.specs.Tests.{refusal_of};
ghost use Rattle.shots.specs.Sizes.{shots_most, coordinates_most};
ghost use Rattle.shots.specs.Refusals.{answered};
ghost use Rattle.records.specs.Formats.{patch_bytes, coordinate_bytes};
ghost use Rattle.records.specs.Reading.{patch_frame, coordinates_of};

use super::{VERSION, fields};
use shots::{COORDINATES_MOST, Refusal, SHOTS_LEAST, SHOTS_MOST};

// How many shots the frame of a patch record counts; or 5 6 1 5 in this order.
#[tactic(auto, using(crate::proofs::FormatLaws::frame_long), unfolding(algebra::specs::Answer::chain))]
pub fn frame(b: &[u8]) -> Result<usize, Refusal>
    ensures { answered result ≡ chain (patch_frame b.now) (get_or b.now 3 0) }
{
    fields::accept_length(b, 4)?;
    if b[2] != VERSION {
        return Err(Refusal::Version);
    }
    let n = usize::from(b[3]);
    if !(SHOTS_LEAST..=SHOTS_MOST).contains(&n) {
        return Err(Refusal::Count);
    }
    if usize::from(fields::two(b, 0)) != 2 + 8 * n {
        return Err(Refusal::Length);
    }
    Ok(n)
}

// The coordinates of n shots, and 0 in the places past them.
pub fn coordinates(b: &[u8], n: usize) -> [i32; COORDINATES_MOST]
    requires { (n ≤ shots_most) × (n ≡ get_or b.now 3 0) × (4 + 8 * n ≤ length b.now) }
    ensures { result ≡ wrote (replicate coordinates_most (pos 0)) 0 (coordinates_of b.now) }
{
    let mut out = [0; COORDINATES_MOST];
    for i in 0..2 * n {
        out[i] = fields::four(b, 4 + 4 * i);
    }
    out
}

// The bytes of a record of n shots.
pub fn size(n: usize) -> usize
    requires { n ≤ shots_most }
    ensures { result ≡ 4 + 8 * n }
{
    4 + 8 * n
}

// Puts the coordinates behind the head of the record.
fn put_coordinates(shots: &[i32], out: &mut [u8])
    requires { (length shots.now ≤ 2 * shots_most) × (4 + 4 * length shots.now ≤ length out.old) }
    ensures { out.new ≡ wrote out.old 4 (over (coordinate_bytes shots.now) 0 (length shots.now)) }
{
    for (i, x) in shots.iter().enumerate() {
        fields::put_four(out, 4 + 4 * i, *x);
    }
}

// Puts the record of an accepted patch at the front of out.
#[tactic(auto, using(crate::proofs::FormatLaws::head_kept, shots::proofs::Patch::patch_few, shots::proofs::Patch::patch_even))]
pub fn put(shots: &[i32], out: &mut [u8])
    requires { (refusal_of shots.now ≡ 0) × (4 + 8 * count_of shots.now ≤ length out.old) }
    ensures { out.new ≡ wrote out.old 0 (patch_bytes shots.now) }
{
    let n = shots.len() / 2;
    fields::put_two(out, 0, (2 + 8 * n) as u16);
    out[2] = VERSION;
    out[3] = n as u8;
    put_coordinates(shots, out);
}
