// The parts of a surface record.
ghost use Rattle.std.specs.Prelude.{◌≡◌, [], ◌∷◌, ◌+◌, ◌*◌, ◌≤◌, ◌<◌, length, get_or};
ghost use Rattle.algebra.specs.Answer.{chain};
ghost use Rattle.algebra.specs.Writing.{wrote};
ghost use Rattle.shots.specs.Sizes.{shots_most};
ghost use Rattle.shots.specs.Refusals.{answered, answer_of};
ghost use Rattle.triples.specs.Sizes.{triples_most};
ghost use Rattle.triples.specs.Ranks.{triple_count, triple_at};
ghost use Rattle.triples.specs.Sets.{words_of, size_of};
ghost use Rattle.records.specs.Formats.{triple_bytes, surface_bytes};
ghost use Rattle.records.specs.Reading.{surface_frame, in_form, triple_rule, listed_of};
ghost use Rattle.records.specs.Calls.{framed_of};

use super::{VERSION, fields};
use shots::Refusal;
use triples::ranks::Triple;
use triples::{Triples, ranks, sets};

// How many triples the frame of a surface record for n shots counts; or 5 6 7 5 in this order.
#[tactic(auto, using(crate::proofs::FormatLaws::frame_long), unfolding(algebra::specs::Answer::chain))]
fn frame(n: usize, b: &[u8]) -> Result<usize, Refusal>
    ensures { answered result ≡ chain (surface_frame n b.now) (get_or b.now 4 0) }
{
    fields::accept_length(b, 5)?;
    if b[2] != VERSION {
        return Err(Refusal::Version);
    }
    if usize::from(b[3]) != n {
        return Err(Refusal::Shot);
    }
    let t = usize::from(b[4]);
    if usize::from(fields::two(b, 0)) != 3 + 3 * t {
        return Err(Refusal::Length);
    }
    Ok(t)
}

// Triple j of the record.
fn triple(b: &[u8], j: usize) -> Triple
    requires { 8 + 3 * j ≤ length b.now }
    ensures { (result.i ≡ get_or b.now (5 + 3 * j) 0) × (result.j ≡ get_or b.now (6 + 3 * j) 0) × (result.k ≡ get_or b.now (7 + 3 * j) 0) }
{
    Triple {
        i: usize::from(b[5 + 3 * j]),
        j: usize::from(b[6 + 3 * j]),
        k: usize::from(b[7 + 3 * j]),
    }
}

// Whether i < j < k are shots of n.
#[tactic(auto, unfolding(crate::specs::Reading::in_form))]
fn in_form(n: usize, t: Triple) -> bool
    ensures { result ≡ in_form n t.i t.j t.k }
{
    t.i < t.j && t.j < t.k && t.k < n
}

// The list of the record's triples; 7 where one is out of form or does not come after the one before it.
fn list_in(n: usize, b: &[u8], t: usize) -> Result<Triples, Refusal>
    requires { (n ≤ shots_most) × (t ≡ get_or b.now 4 0) × (5 + 3 * t ≤ length b.now) }
    ensures { answer_of words_of result ≡ chain (triple_rule n b.now ∷ []) (listed_of n b.now) }
{
    let mut list = sets::none();
    let mut least = 0;
    for j in 0..t {
        let s = triple(b, j);
        if !in_form(n, s) {
            return Err(Refusal::Shot);
        }
        let r = ranks::rank(n, s.i, s.j, s.k);
        if r < least {
            return Err(Refusal::Shot);
        }
        list = sets::with(list, r);
        least = r + 1;
    }
    Ok(list)
}

// What the bytes say by themselves, for n shots: a list, or 5 6 7 5 7 in this order.
#[tactic(auto, using(crate::proofs::CallChains::frame_refused, crate::proofs::CallChains::frame_passed, crate::proofs::CallChains::surface_counted))]
pub fn read(n: usize, b: &[u8]) -> Result<Triples, Refusal>
    requires { n ≤ shots_most }
    ensures { answer_of words_of result ≡ framed_of n b.now }
{
    let t = frame(n, b)?;
    list_in(n, b, t)
}

// The bytes of a record of t triples.
pub fn size(t: usize) -> usize
    requires { t ≤ triples_most }
    ensures { result ≡ 5 + 3 * t }
{
    5 + 3 * t
}

// Puts the triple of rank r at three places from at on.
fn put_triple(n: usize, r: usize, out: &mut [u8], at: usize)
    requires { (n ≤ shots_most) × (r < triple_count n) × (at + 3 ≤ length out.old) }
    ensures { out.new ≡ wrote out.old at (triple_at n r) }
{
    let s = ranks::triple_at(n, r);
    out[at..at + 3].copy_from_slice(&[s.i as u8, s.j as u8, s.k as u8]);
}

// Puts the triples of the list behind the head of the record, in the order of their ranks.
fn put_triples(n: usize, list: Triples, out: &mut [u8])
    requires { (n ≤ shots_most) × (5 + 3 * size_of n (words_of list) ≤ length out.old) }
    ensures { out.new ≡ wrote out.old 5 (triple_bytes n (words_of list)) }
{
    let count = ranks::count(n);
    let mut at = 5;
    // A loop over all ranks would ask of each whether it is in the list; this one leaps to the next that is.
    let mut r = sets::from(list, 0);
    while r < count {
        put_triple(n, r, out, at);
        at += 3;
        r = sets::from(list, r + 1);
    }
}

// Puts the record of a list of t triples of n shots at the front of out.
#[tactic(auto, using(crate::proofs::FormatLaws::size_few))]
pub fn put(n: usize, list: Triples, t: usize, out: &mut [u8])
    requires { (n ≤ shots_most) × (t ≡ size_of n (words_of list)) × (5 + 3 * t ≤ length out.old) }
    ensures { out.new ≡ wrote out.old 0 (surface_bytes n (words_of list)) }
{
    fields::put_two(out, 0, (3 + 3 * t) as u16);
    out[2] = VERSION;
    out[3] = n as u8;
    out[4] = t as u8;
    put_triples(n, list, out);
}
