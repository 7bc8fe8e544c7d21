// Shots as two lent runs: a byte for each shot's unit, 0 metres and anything else feet, and its east and north.
ghost use Rattle.std.specs.Prelude.{◌≡◌, ◌*◌, ◌≤◌, ◌<◌, length, replicate};
ghost use Rattle.algebra.specs.Writing.{wrote};
ghost use Rattle.shots.specs.Sizes.{shots_most};
ghost use Rattle.intake.specs.Scaling.{at_origin};
ghost use Rattle.intake.specs.Runs.{shot_in, shots_in};

use super::Shot;
use shots::SHOTS_MOST;

fn shot_in(units: &[u8], values: &[f64], i: usize) -> Shot
    requires { (i < length units.now) × (length units.now ≤ shots_most) × (length values.now ≡ 2 * length units.now) }
    ensures { result ≡ shot_in units.now values.now i }
{
    let east = values[2 * i];
    let north = values[2 * i + 1];
    if units[i] == 0 {
        Shot::Metres(east, north)
    } else {
        Shot::Feet(east, north)
    }
}

// The shots in front of an array.
pub fn gathered(units: &[u8], values: &[f64]) -> [Shot; SHOTS_MOST]
    requires { (length units.now ≤ shots_most) × (length values.now ≡ 2 * length units.now) }
    ensures { result ≡ wrote (replicate shots_most at_origin) 0 (shots_in units.now values.now) }
{
    let mut out = [Shot::Metres(0.0, 0.0); SHOTS_MOST];
    for (i, shot) in out[..units.len()].iter_mut().enumerate() {
        *shot = shot_in(units, values, i);
    }
    out
}
