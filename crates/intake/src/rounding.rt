// A scaled number as a whole number of millimetres.
ghost use Rattle.std.specs.Prelude.{◌≡◌, true, false};
ghost use Rattle.std.specs.Float.Ieee.Scale.{finite};
ghost use Rattle.shots.specs.Refusals.{answered};
ghost use Rattle.intake.specs.Nearest.{whole_of};
ghost use Rattle.intake.specs.Tests.{far_off, whole_in_range};

use shots::Refusal;

// Whether the whole number is beyond the range of a coordinate. The half on its edge goes to the even number, which is in range.
fn is_far(x: f64) -> bool
    requires { finite x ≡ true }
    ensures { result ≡ far_off x }
{
    x < -1000000.5 || 1000000.5 < x
}

// The nearest whole number. From 2^52 to 2^53 every f64 is whole, so the sum with 3 * 2^51, an even number in their middle, rounds to it, once.
fn whole(x: f64) -> i32
    requires { (finite x ≡ true) × (far_off x ≡ false) }
    ensures { result ≡ whole_of x }
{
    let sum = x + 6755399441055744.0;
    ((sum as i64) - 6755399441055744) as i32
}

// The nearest whole number, where it is in the range of a coordinate.
pub fn millimetres(x: f64) -> Result<i32, Refusal>
    requires { finite x ≡ true }
    ensures { answered result ≡ whole_in_range x }
{
    if is_far(x) {
        return Err(Refusal::Far);
    }
    Ok(whole(x))
}
