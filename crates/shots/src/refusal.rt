// Why a call is refused: one number for each reason, the same in every room, in C and in what the programs print.
ghost use Rattle.std.specs.Prelude.{◌≡◌};
ghost use Rattle.shots.specs.Refusals.{Numbers};

/// What is wrong with what a call was lent. `u8::from` gives its number.
#[derive(Clone, Copy, Debug, PartialEq, Eq)]
pub enum Refusal {
    /// Not 3 to 10 shots, an odd run, or not two values for each shot.
    Count = 1,
    /// A coordinate beyond its range.
    Far = 2,
    /// Two shots are equal.
    Equal = 3,
    /// All shots are on one line.
    Line = 4,
    /// A record's bytes and its length disagree.
    Length = 5,
    /// Another version of a record.
    Version = 6,
    /// A shot that is not there, twice, or not in its place; a triple that is flat or none; a record of another number of shots.
    Shot = 7,
    /// Two triangles cross, overlap, or meet in part of an edge.
    Crossing = 8,
    /// An inner edge with a triangle on one side alone.
    Open = 9,
    /// A list with no triangle.
    Empty = 10,
    /// A table or a buffer with no room.
    Room = 11,
    /// A number that is not a circuit.
    Circuit = 12,
    /// No flip along the circuit.
    Flip = 13,
    /// A record that no walk has.
    Walk = 15,
    /// A number that is not finite.
    Infinite = 16,
    /// An edition that is not known.
    Edition = 17,
}

impl From<Refusal> for u8 {
    ghost from_gives = { Numbers };

    fn from(refusal: Refusal) -> u8 {
        refusal as u8
    }
}
