// Outline: the corners of a patch, the ends of its sides, as two chains from the leftmost shot (the lowest of equals) to the rightmost (the highest of equals).
// The south chain has every shot on its left or along it, the north chain on its right or along it; both have both ends.
//
//   chains    the two chains' shot numbers, each at the front of a lent buffer    1-4, 11
//   part      the filled part of one of the two buffers, without a copy
//
// Every call takes every input; specs/Calls.antt says what it answers and leaves, specs/Lines.antt when it refuses.
#![tactic(auto)]

ghost use Rattle.std.specs.Prelude.{◌≡◌};
ghost use Rattle.outline.specs.Calls.{outlined_in, chains_of, part_of};

mod buffers;
mod wrapping;

use shots::Refusal;

// How many shots each chain has.
#[derive(Clone, Copy, Debug, PartialEq, Eq)]
pub struct Lengths {
    pub south: usize,
    pub north: usize,
}

// Which of the two chains is asked for.
#[derive(Clone, Copy, Debug, PartialEq, Eq)]
pub enum Facing {
    South,
    North,
}

pub fn chains(shots: &[i32], south: &mut [u8], north: &mut [u8]) -> Result<Lengths, Refusal>
    ensures { outlined_in result south.new north.new ≡ chains_of shots.now south.old north.old }
{
    shots::accept(shots)?;
    let below = wrapping::chain(shots, Facing::South);
    let above = wrapping::chain(shots, Facing::North);
    buffers::fill(south, north, &below, &above)?;
    Ok(Lengths {
        south: below.len(),
        north: above.len(),
    })
}

// The part that `chains` filled, where `lengths` is what it answered; empty where the length exceeds its buffer.
pub fn part<'a>(facing: Facing, south: &'a [u8], north: &'a [u8], lengths: Lengths) -> &'a [u8]
    ensures { result.now ≡ part_of facing south.now north.now lengths }
{
    match facing {
        Facing::South => buffers::front(south, lengths.south),
        Facing::North => buffers::front(north, lengths.north),
    }
}
