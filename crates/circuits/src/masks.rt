// The sides of a circuit, shot by shot in increasing order.
ghost use Rattle.std.specs.Prelude.{◌≡◌, ◌^◌, ◌<◌};
ghost use Rattle.circuits.specs.Joined.{begun, joined, sides3, sides4, Below};
ghost use Rattle.shots.specs.Sizes.{mask_bits};

use super::Sides;

fn bit(i: usize) -> u16
    requires { i < mask_bits }
    ensures { result ≡ 2 ^ i }
{
    1u16 << i
}

// The first shot is on the plus side.
fn begin(i: usize) -> Sides
    requires { i < mask_bits }
    ensures { result ≡ begun i }
{
    Sides {
        plus: bit(i),
        minus: 0,
    }
}

// One shot more, larger than all so far, on the side of the first or on the other.
fn join(z: Sides, i: usize, same: bool) -> Sides
    requires { (i < mask_bits) × Below z i }
    ensures { result ≡ joined z i same }
{
    if same {
        Sides {
            plus: z.plus + bit(i),
            ..z
        }
    } else {
        Sides {
            minus: z.minus + bit(i),
            ..z
        }
    }
}

// Three shots in order, b and c on the side of a or not.
pub fn of_three(a: usize, b: usize, c: usize, p: bool, q: bool) -> Sides
    requires { (a < b) × (b < c) × (c < mask_bits) }
    ensures { result ≡ sides3 a b c p q }
{
    join(join(begin(a), b, p), c, q)
}

// Four shots in order, b, c and d on the side of a or not.
pub fn of_four(a: usize, b: usize, c: usize, d: usize, p: bool, q: bool, r: bool) -> Sides
    requires { (a < b) × (b < c) × (c < d) × (d < mask_bits) }
    ensures { result ≡ sides4 a b c d p q r }
{
    join(of_three(a, b, c, p, q), d, r)
}
