// The double area of a list: that of its triples, summed.
ghost use Rattle.std.specs.Prelude.{◌≡◌, ◌*◌, ◌<◌, ◌≤◌};
ghost use Rattle.shots.specs.Sizes.{shots_most, farthest};
ghost use Rattle.shots.specs.Patch.{count_of};
ghost use Rattle.shots.specs.Tests.{Near};
ghost use Rattle.triples.specs.Sets.{words_of};
ghost use Rattle.triples.specs.Ranks.{triple_count, triple_at};
ghost use Rattle.surfaces.specs.Areas.{triple_area_of, area_sum_of};

use triples::{Triples, ranks, sets};

// The double area of the triple of rank r.
fn of_rank(shots: &[i32], r: usize) -> u64
    requires { Near shots.now × (count_of shots.now ≤ shots_most) × (r < triple_count (count_of shots.now)) }
    ensures { (result ≡ triple_area_of shots.now (triple_at (count_of shots.now) r)) × (result ≤ 8 * farthest * farthest) }
{
    let s = ranks::triple_at(shots.len() / 2, r);
    shots::plane::size(shots, s.i, s.j, s.k)
}

// The double areas of the triples of the list, summed.
pub fn sum(shots: &[i32], list: Triples) -> u64
    requires { Near shots.now × (count_of shots.now ≤ shots_most) }
    ensures { result ≡ area_sum_of shots.now (words_of list) }
{
    let count = ranks::count(shots.len() / 2);
    // No chain over all ranks: a list has few of them, so it goes from one that is in it to the next.
    let mut sum = 0;
    let mut r = sets::from(list, 0);
    while r < count {
        sum += of_rank(shots, r);
        r = sets::from(list, r + 1);
    }
    sum
}
