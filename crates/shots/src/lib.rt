// Shots: one lent run of coordinates, whole millimetres, x then y of each shot. Above this room they are only written to a record and read from one.
//
//   accept         is the run a patch?                                     1 2 3 4
//   orientation    the double area of three shots, with its sign           1-4, 7
//   double_area    its size                                                1-4, 7
//   cocircuit      its sign, for a pair with every shot                    1-4, 7
//   border         the number of sides                                     1-4
//
// Every call takes every input; specs/Calls.antt says what it answers, specs/Lines.antt when it refuses.
#![tactic(auto)]

ghost use Rattle.std.specs.Prelude.{◌≡◌};
ghost use Rattle.shots.specs.Refusals.{answered};
ghost use Rattle.shots.specs.Calls.{read_signs, accept_of, orientation_of, double_area_of, cocircuit_of, border_call_of};

pub mod pairs;
pub mod plane;
mod refusal;
pub mod tests;

pub use refusal::Refusal;

// A patch has this many shots at least, and at most.
pub const SHOTS_LEAST: usize = 3;

pub const SHOTS_MOST: usize = 10;

// The coordinates of the largest patch.
pub const COORDINATES_MOST: usize = 2 * SHOTS_MOST;

// A coordinate lies between these, both included.
pub const LOWEST: i32 = -1000000;

pub const HIGHEST: i32 = 1000000;

// The shots that a call hands out: how many, and their coordinates, 0 past them.
#[derive(Clone, Copy)]
pub struct Handed {
    pub count: usize,
    pub coordinates: [i32; COORDINATES_MOST],
}

pub fn accept(shots: &[i32]) -> Result<(), Refusal>
    ensures { answered result ≡ accept_of shots.now }
{
    if tests::bad_count(shots) {
        return Err(Refusal::Count);
    }
    if tests::some_far(shots) {
        return Err(Refusal::Far);
    }
    if tests::some_same(shots) {
        return Err(Refusal::Equal);
    }
    if !tests::some_bent(shots) {
        return Err(Refusal::Line);
    }
    Ok(())
}

// Positive where the turn is counterclockwise.
pub fn orientation(shots: &[i32], a: usize, b: usize, c: usize) -> Result<i64, Refusal>
    ensures { answered result ≡ orientation_of shots.now a b c }
{
    accept(shots)?;
    if tests::no_shot(shots.len() / 2, a, b, c) {
        return Err(Refusal::Shot);
    }
    Ok(plane::area(shots, a, b, c))
}

pub fn double_area(shots: &[i32], a: usize, b: usize, c: usize) -> Result<u64, Refusal>
    ensures { answered result ≡ double_area_of shots.now a b c }
{
    let area = orientation(shots, a, b, c)?;
    Ok(area.unsigned_abs())
}

// The sign at each shot, and 0 past them.
pub fn cocircuit(shots: &[i32], i: usize, j: usize) -> Result<[i8; SHOTS_MOST], Refusal>
    ensures { read_signs result ≡ cocircuit_of shots.now i j }
{
    accept(shots)?;
    if tests::no_pair(shots.len() / 2, i, j) {
        return Err(Refusal::Shot);
    }
    Ok(pairs::signs_of(shots, i, j))
}

pub fn border(shots: &[i32]) -> Result<usize, Refusal>
    ensures { answered result ≡ border_call_of shots.now }
{
    accept(shots)?;
    Ok(pairs::side_count(shots))
}
