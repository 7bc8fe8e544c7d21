// Intake: shots as a controller gives them, metres or feet, become the coordinates of a patch, in whole millimetres.
//
//   take         the shots of an array, the first so many                      17, 1, each shot's 16 or 2, 3 4
//   take_runs    the shots of two lent runs, of units and of east and north    17, 1, each shot's 16 or 2, 3 4
//
// The edition says which foot is meant: 1 the US survey foot, 2 the international foot; metres do not depend on it.
// Every call takes every input; specs/Calls.antt says what it answers, specs/Scaling.antt which operations are made, specs/Nearest.antt which whole number is taken,
// specs/Lines.antt when a call refuses.
#![tactic(auto)]

ghost use Rattle.std.specs.Prelude.{◌≡◌, false, length};
ghost use Rattle.shots.specs.Calls.{read_patch};
ghost use Rattle.intake.specs.Tests.{count_rule};
ghost use Rattle.intake.specs.Calls.{taken_by, take_of, take_runs_of};

use shots::{Handed, Refusal, SHOTS_LEAST, SHOTS_MOST};

mod rounding;
mod runs;
mod scaling;
mod turns;

// A shot, its east and its north.
#[derive(Clone, Copy)]
pub enum Shot {
    Metres(f64, f64),
    Feet(f64, f64),
}

// What feet are multiplied by to make millimetres, and then divided by.
#[derive(Clone, Copy)]
pub struct Foot {
    pub times: f64,
    pub over: f64,
}

// A shot's east and north after the factors, before they are rounded to whole millimetres.
#[derive(Clone, Copy)]
pub struct Scaled {
    pub east: f64,
    pub north: f64,
}

// Whether a patch has not so many shots.
fn miscounted(count: usize) -> bool
    ensures { result ≡ (count_rule count).broken }
{
    count < SHOTS_LEAST || SHOTS_MOST < count
}

// The shots by a foot's factors, once their number is right.
fn taken(foot: Foot, shots: &[Shot]) -> Result<Handed, Refusal>
    requires { (count_rule (length shots.now)).broken ≡ false }
    ensures { read_patch result ≡ taken_by foot (count_rule (length shots.now)) shots.now (length shots.now) }
{
    let count = shots.len();
    let coordinates = turns::coordinates(foot, shots)?;
    shots::accept(&coordinates[..2 * count])?;
    Ok(Handed { count, coordinates })
}

pub fn take(edition: usize, shots: [Shot; SHOTS_MOST], count: usize) -> Result<Handed, Refusal>
    ensures { read_patch result ≡ take_of edition shots count }
{
    let foot = scaling::foot_of(edition)?;
    if miscounted(count) {
        return Err(Refusal::Count);
    }
    taken(foot, &shots[..count])
}

pub fn take_runs(edition: usize, units: &[u8], values: &[f64]) -> Result<Handed, Refusal>
    ensures { read_patch result ≡ take_runs_of edition units.now values.now }
{
    let foot = scaling::foot_of(edition)?;
    let count = units.len();
    if miscounted(count) || values.len() != 2 * count {
        return Err(Refusal::Count);
    }
    taken(foot, &runs::gathered(units, values)[..count])
}
