// Chains in lent buffers.
ghost use Rattle.std.specs.Prelude.{◌≡◌};
ghost use Rattle.algebra.specs.Writing.{buffer_with};
ghost use Rattle.shots.specs.Refusals.{answered};
ghost use Rattle.outline.specs.Calls.{fill_of, front_bytes};

use shots::Refusal;

// Puts two chains, each at the front of its buffer, where both have room.
pub fn fill(south: &mut [u8], north: &mut [u8], below: &[u8], above: &[u8]) -> Result<(), Refusal>
    ensures { (answered result ≡ fill_of below.now above.now south.old north.old) × (south.new ≡ buffer_with (answered result) below.now south.old) × (north.new ≡ buffer_with (answered result) above.now north.old) }
{
    if south.len() < below.len() || north.len() < above.len() {
        return Err(Refusal::Room);
    }
    south[..below.len()].copy_from_slice(below);
    north[..above.len()].copy_from_slice(above);
    Ok(())
}

// The first bytes of a buffer, so many; none where it has fewer.
pub fn front<'a>(buffer: &'a [u8], length: usize) -> &'a [u8]
    ensures { result.now ≡ front_bytes length buffer.now }
{
    buffer.get(..length).unwrap_or(&[])
}
