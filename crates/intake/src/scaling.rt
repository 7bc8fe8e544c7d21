// The factors of a shot's unit.
ghost use Rattle.std.specs.Prelude.{◌≡◌};
ghost use Rattle.shots.specs.Refusals.{answered};
ghost use Rattle.intake.specs.Scaling.{scaled_of};
ghost use Rattle.intake.specs.Tests.{foot_in};

use super::{Foot, Scaled, Shot};
use shots::Refusal;

// The US survey foot, 1200 / 3937 of a metre, and the international foot that came in its place, 0.3048 m. There is no other edition.
pub fn foot_of(edition: usize) -> Result<Foot, Refusal>
    ensures { answered result ≡ foot_in edition }
{
    match edition {
        1 => Ok(Foot {
            times: 1200000.0,
            over: 3937.0,
        }),
        2 => Ok(Foot {
            times: 3048.0,
            over: 10.0,
        }),
        _ => Err(Refusal::Edition),
    }
}

pub fn scale(foot: Foot, shot: Shot) -> Scaled
    ensures { result ≡ scaled_of foot shot }
{
    let times = foot.times;
    let over = foot.over;
    match shot {
        Shot::Metres(east, north) => Scaled {
            east: east * 1000.0,
            north: north * 1000.0,
        },
        Shot::Feet(east, north) => Scaled {
            east: east * times / over,
            north: north * times / over,
        },
    }
}
