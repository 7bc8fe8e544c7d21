// How a call answers C: one number, and what it gives at a place that is lent for it.
ghost use Rattle.std.specs.Prelude.{◌≡◌};
ghost use Rattle.shots.specs.Refusals.{answered, answer_of};
ghost use Rattle.triples.specs.Sets.{words_of};
ghost use Rattle.shots.specs.Calls.{read_patch};
ghost use Rattle.patch.specs.Returns.{number_of, left_at, beside_at};

use shots::{COORDINATES_MOST, Handed, Refusal};
use triples::{Triples, WORDS};

// 0 with what the call gives at its place, or the number of the refusal with the place as it was.
pub fn told<T: Copy>(answer: Result<T, Refusal>, place: &mut T) -> u8
    ensures number { result ≡ number_of (answered answer) }
    ensures place { place.new ≡ left_at place.old (answered answer) }
{
    match answer {
        Ok(given) => {
            *place = given;
            0
        }
        Err(refusal) => u8::from(refusal),
    }
}

// The same of shots that are handed out: their coordinates and their number have a place each.
pub fn handed(
    answer: Result<Handed, Refusal>,
    shots: &mut [i32; COORDINATES_MOST],
    count: &mut usize,
) -> u8
    ensures number { result ≡ number_of (read_patch answer).answer }
    ensures coordinates { shots.new ≡ beside_at shots.old (read_patch answer).answer (read_patch answer).coordinates }
    ensures count { count.new ≡ left_at count.old (read_patch answer).answer }
{
    match answer {
        Ok(given) => {
            let coordinates = given.coordinates;
            *shots = coordinates;
            *count = given.count;
            0
        }
        Err(refusal) => u8::from(refusal),
    }
}

// The same of a list, whose words have their place.
pub fn listed(answer: Result<Triples, Refusal>, list: &mut [u64; WORDS]) -> u8
    ensures number { result ≡ number_of (answer_of words_of answer) }
    ensures list { list.new ≡ left_at list.old (answer_of words_of answer) }
{
    match answer {
        Ok(given) => {
            let words = given.words;
            *list = words;
            0
        }
        Err(refusal) => u8::from(refusal),
    }
}
