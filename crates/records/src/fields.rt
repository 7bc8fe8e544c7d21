// Numbers in bytes: big-endian, two's complement.
ghost use Rattle.std.specs.Prelude.{◌≡◌, ◌+◌, ◌≤◌, [], ◌∷◌, length};
ghost use Rattle.algebra.specs.Answer.{chain};
ghost use Rattle.algebra.specs.Writing.{wrote};
ghost use Rattle.shots.specs.Refusals.{answered};
ghost use Rattle.records.specs.Fields.{bytes_of, field_of, code_of, signed_of};
ghost use Rattle.records.specs.Reading.{length_rule};

use shots::Refusal;

// The number in the two bytes from place at on.
pub fn two(b: &[u8], at: usize) -> u16
    requires { at + 2 ≤ length b.now }
    ensures { result ≡ field_of 2 b.now at }
{
    u16::from_be_bytes([b[at], b[at + 1]])
}

// The whole number in the four bytes from place at on. It is not built into its caller's loop, which would then go by vectors and read a stored table of how to shuffle them.
#[inline(never)]
pub fn four(b: &[u8], at: usize) -> i32
    requires { at + 4 ≤ length b.now }
    ensures { result ≡ signed_of (field_of 4 b.now at) }
{
    i32::from_be_bytes([b[at], b[at + 1], b[at + 2], b[at + 3]])
}

// Whether there are k bytes at least, and the length field is the number of bytes after it.
#[tactic(auto, unfolding(crate::specs::Reading::misfits, algebra::specs::Answer::chain))]
pub fn accept_length(b: &[u8], k: usize) -> Result<(), Refusal>
    requires { 2 ≤ k }
    ensures { answered result ≡ chain (length_rule k b.now ∷ []) tt }
{
    if b.len() < k || usize::from(two(b, 0)) + 2 != b.len() {
        return Err(Refusal::Length);
    }
    Ok(())
}

// Puts v into the two bytes from place at on.
pub fn put_two(out: &mut [u8], at: usize, v: u16)
    requires { at + 2 ≤ length out.old }
    ensures { out.new ≡ wrote out.old at (bytes_of 2 v) }
{
    out[at..at + 2].copy_from_slice(&v.to_be_bytes());
}

// Puts the whole number x into the four bytes from place at on, one by one out of its little-endian bytes: out of the big-endian ones, or all at once, they would go by vectors in its caller's loop, as with `four`.
pub fn put_four(out: &mut [u8], at: usize, x: i32)
    requires { at + 4 ≤ length out.old }
    ensures { out.new ≡ wrote out.old at (bytes_of 4 (code_of x)) }
{
    let [d, c, b, a] = x.to_le_bytes();
    out[at] = a;
    out[at + 1] = b;
    out[at + 2] = c;
    out[at + 3] = d;
}
