// Triples of shots: their ranks, sets of them in words, tables of such sets, and the sets by what they hold. It has no call of its own; the rooms above use its parts.
#![tactic(auto)]

pub mod holding;
pub mod masks;
pub mod pieces;
pub mod ranks;
pub mod rows;
pub mod sets;
pub mod words;

// A piece of the plane has so many shots, and the largest patch so many pieces.
pub const PIECE: usize = 3;

pub const PIECES_MOST: usize = 120;

// A set has this many words, of so many bits.
pub const WORDS: usize = 2;

pub const WORD_BITS: usize = 64;

// A set of triples: rank r at bit r mod 64, from the low end, of word r div 64.
#[derive(Clone, Copy, PartialEq, Eq, Debug)]
pub struct Triples {
    pub words: [u64; WORDS],
}
