// The flip of a list along a circuit, by sets of triples.
ghost use Rattle.std.specs.Prelude.{◌≡◌, ◌^◌, ◌<◌, option_map};
ghost use Rattle.algebra.specs.Words.{clear_bit};
ghost use Rattle.shots.specs.Sizes.{mask_bits};
ghost use Rattle.triples.specs.Sets.{words_of};
ghost use Rattle.surfaces.specs.Stars.{star_of, IsStar, linked_of, linked_at, supported_by, turned_by, found_by, flipped_by, taken_by};

use super::holders::Holders;
use triples::{Triples, holding, sets};

// The mask x without shot i.
fn dropped(x: u16, i: usize) -> u16
    requires { i < mask_bits }
    ensures { result ≡ clear_bit x i }
{
    x & !(1 << i)
}

// The triples that hold all shots of the circuit x but one of its side a.
pub fn star(held: Holders, a: u16, x: u16) -> Triples
    ensures { words_of result ≡ star_of held.entry.n a x }
{
    let all = holding::full(held.n);
    let mut t = sets::none();
    for i in 0..held.n {
        if holding::on(a, i) {
            let rest = held.around(dropped(x, i), all);
            t = sets::either(t, sets::less(rest, held.row(i)));
        }
    }
    t
}

// Whether k is a shot outside the circuit x whose cone over the star is in the list, all of it and not empty.
fn linked_at(held: Holders, x: u16, star: Triples, list: Triples, k: usize) -> bool
    requires { k < held.n }
    ensures { result ≡ linked_at held.entry.n x (words_of star) (words_of list) k }
{
    let cone = sets::both(star, held.row(k));
    !holding::on(x, k) && sets::meets(cone, list) && sets::inside(cone, list)
}

// The triples with a shot of the link.
fn linked(held: Holders, x: u16, star: Triples, list: Triples) -> Triples
    ensures { words_of result ≡ linked_of held.entry.n x (words_of star) (words_of list) }
{
    let mut t = sets::none();
    for k in 0..held.n {
        if linked_at(held, x, star, list, k) {
            t = sets::either(t, held.row(k));
        }
    }
    t
}

// The list with the star exchanged for the other one, where it supports the star.
fn exchange(held: Holders, x: u16, star: Triples, other: Triples, list: Triples) -> Option<Triples>
    requires { (x < 2 ^ held.n) × IsStar held.n x (words_of star) }
    ensures { option_map words_of result ≡ taken_by (supported_by held.entry.n x (words_of star) (words_of list)) (turned_by held.entry.n x (words_of star) (words_of other) (words_of list)) }
{
    if !sets::meets(star, list) {
        return None;
    }
    if sets::inside(star, list) {
        return Some(sets::either(sets::less(list, star), other));
    }
    // Of four shots a triple of the star holds three, and no other shot: nothing is linked.
    if x.count_ones() == 4 {
        return None;
    }
    let cones = linked(held, x, star, list);
    if !sets::inside(sets::both(star, list), cones) {
        return None;
    }
    Some(sets::either(
        sets::less(list, sets::both(star, cones)),
        sets::both(other, cones),
    ))
}

// The flip between two stars of the circuit x: the plus side's pieces where they are supported, else the minus side's.
pub fn between(
    held: Holders,
    x: u16,
    plus: Triples,
    minus: Triples,
    list: Triples,
) -> Option<Triples>
    requires { (x < 2 ^ held.n) × IsStar held.n x (words_of plus) × IsStar held.n x (words_of minus) }
    ensures { option_map words_of result ≡ taken_by (found_by held.entry.n x (words_of plus) (words_of minus) (words_of list)) (flipped_by held.entry.n x (words_of plus) (words_of minus) (words_of list)) }
{
    // Most circuits have nothing of the list about them: one test for both sides.
    if !sets::meets(sets::either(plus, minus), list) {
        return None;
    }
    if let Some(turned) = exchange(held, x, plus, minus, list) {
        return Some(turned);
    }
    exchange(held, x, minus, plus, list)
}
