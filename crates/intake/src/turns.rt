// The shots in turn.
ghost use Rattle.std.specs.Prelude.{◌≡◌, ◌≤◌, length};
ghost use Rattle.shots.specs.Refusals.{answered};
ghost use Rattle.shots.specs.Sizes.{shots_most};
ghost use Rattle.intake.specs.Tests.{placed_of, coordinates_of};

use super::{Foot, Shot, rounding, scaling};
use shots::{COORDINATES_MOST, Refusal};

// A shot's east and north in whole millimetres. One that is not finite refuses it before one that is out of range.
fn placed(foot: Foot, shot: Shot) -> Result<(i32, i32), Refusal>
    ensures { answered result ≡ placed_of foot shot }
{
    let scaled = scaling::scale(foot, shot);
    if !scaled.east.is_finite() || !scaled.north.is_finite() {
        return Err(Refusal::Infinite);
    }
    let east = rounding::millimetres(scaled.east)?;
    let north = rounding::millimetres(scaled.north)?;
    Ok((east, north))
}

// The coordinates of the shots, and 0 in the places past them.
pub fn coordinates(foot: Foot, shots: &[Shot]) -> Result<[i32; COORDINATES_MOST], Refusal>
    requires { length shots.now ≤ shots_most }
    ensures { answered result ≡ coordinates_of foot shots.now }
{
    let mut out = [0; COORDINATES_MOST];
    for (i, shot) in shots.iter().enumerate() {
        let (east, north) = placed(foot, *shot)?;
        out[2 * i] = east;
        out[2 * i + 1] = north;
    }
    Ok(out)
}
