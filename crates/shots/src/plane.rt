// Areas and signs of shots that are known to be there and near. The double area with its sign, what the call `orientation` gives, is the core: every sign and every size of three shots is taken of it. `between` alone has another product.
ghost use Rattle.std.specs.Prelude.{◌≡◌, ◌*◌, ◌≤◌, ◌<◌, length, get_or, pos, nat_abs, ◌-ℤ◌, ◌*ℤ◌};
ghost use Rattle.algebra.specs.Sign.{value, sign_of};
ghost use Rattle.shots.specs.Sizes.{farthest};
ghost use Rattle.shots.specs.Coordinates.{area_of};
ghost use Rattle.shots.specs.Patch.{count_of, orient_of, between_of};
ghost use Rattle.shots.specs.Tests.{Near};

// The difference of two coordinates.
fn diff(x: i32, y: i32) -> i64
    ensures { result ≡ x -ℤ y }
{
    i64::from(x) - i64::from(y)
}

// The difference of the coordinates at two places of the run.
fn gap(shots: &[i32], i: usize, j: usize) -> i64
    requires { (i < length shots.now) × (j < length shots.now) }
    ensures { result ≡ get_or shots.now i (pos 0) -ℤ get_or shots.now j (pos 0) }
{
    diff(shots[i], shots[j])
}

// p q - r s, of differences of coordinates.
fn cross(p: i64, q: i64, r: i64, s: i64) -> i64
    requires { (nat_abs p ≤ 2 * farthest) × (nat_abs q ≤ 2 * farthest) × (nat_abs r ≤ 2 * farthest) × (nat_abs s ≤ 2 * farthest) }
    ensures { result ≡ p *ℤ q -ℤ r *ℤ s }
{
    p * q - r * s
}

// The double area of three shots, with its sign.
pub fn area(shots: &[i32], a: usize, b: usize, c: usize) -> i64
    requires { (a < count_of shots.now) × (b < count_of shots.now) × (c < count_of shots.now) × Near shots.now }
    ensures { result ≡ area_of shots.now a b c }
{
    let bax = gap(shots, 2 * b, 2 * a);
    let cay = gap(shots, 2 * c + 1, 2 * a + 1);
    let bay = gap(shots, 2 * b + 1, 2 * a + 1);
    let cax = gap(shots, 2 * c, 2 * a);
    cross(bax, cay, bay, cax)
}

// -1, 0 or 1.
fn sign_of(x: i64) -> i8
    ensures { result ≡ value (sign_of x) }
{
    x.signum() as i8
}

// The sign of the double area of three shots.
pub fn sign(shots: &[i32], a: usize, b: usize, c: usize) -> i8
    requires { (a < count_of shots.now) × (b < count_of shots.now) × (c < count_of shots.now) × Near shots.now }
    ensures { result ≡ value (orient_of shots.now a b c) }
{
    sign_of(area(shots, a, b, c))
}

// The size of the double area of three shots.
pub fn size(shots: &[i32], a: usize, b: usize, c: usize) -> u64
    requires { (a < count_of shots.now) × (b < count_of shots.now) × (c < count_of shots.now) × Near shots.now }
    ensures { result ≡ nat_abs (area_of shots.now a b c) }
{
    area(shots, a, b, c).unsigned_abs()
}

// Of three shots on a line: whether m lies strictly between a and b. The product of the two ways from m is negative.
pub fn between(shots: &[i32], m: usize, a: usize, b: usize) -> bool
    requires { (m < count_of shots.now) × (a < count_of shots.now) × (b < count_of shots.now) × Near shots.now }
    ensures { result ≡ between_of shots.now m a b }
{
    let amx = gap(shots, 2 * a, 2 * m);
    let bmx = gap(shots, 2 * b, 2 * m);
    let may = gap(shots, 2 * m + 1, 2 * a + 1);
    let bmy = gap(shots, 2 * b + 1, 2 * m + 1);
    cross(amx, bmx, may, bmy) < 0
}
