// Text: the lines that `patchwalk` prints, each put behind a text of fixed capacity. It has no call of its own; the rooms above use its parts.
// specs/Lines.antt says what the text is.
#![tactic(auto)]

pub mod counts;
pub mod lines;
pub mod put;

// No line is longer.
pub const LINE_MOST: usize = 544;
