// Sets of shots as masks: shot i at bit i.
ghost use Rattle.std.specs.Prelude.{◌≡◌, ◌<◌};
ghost use Rattle.algebra.specs.Sets.{bit, lowest_of};
ghost use Rattle.algebra.specs.Words.{set_bit, clear_bit};
ghost use Rattle.shots.specs.Sizes.{mask_bits};
ghost use Rattle.triples.specs.Pieces.{holds};

// Whether shot i is in the mask x.
pub fn has(x: u16, i: usize) -> bool
    requires { i < mask_bits }
    ensures { result ≡ bit x i }
{
    (x >> i) & 1 == 1
}

// The mask x with shot i.
pub fn with(x: u16, i: usize) -> u16
    requires { i < mask_bits }
    ensures { result ≡ set_bit x i }
{
    x | (1 << i)
}

// The mask x without shot i.
pub fn without(x: u16, i: usize) -> u16
    requires { i < mask_bits }
    ensures { result ≡ clear_bit x i }
{
    x & !(1 << i)
}

// Whether the piece p holds every shot of the mask x.
pub fn holds(x: u16, p: u16) -> bool
    ensures { result ≡ holds x p }
{
    x & p == x
}

// The first shot of the mask x.
pub fn lowest(x: u16) -> usize
    requires { x ≡ 0 → ⊥ }
    ensures { (result ≡ lowest_of mask_bits x) × (result < mask_bits) }
{
    x.trailing_zeros() as usize
}
