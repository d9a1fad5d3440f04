//! What holds of rooms and of batches: each law is the contract of a function that does nothing.
ghost use Rattle.std.specs.Prelude.{ℕ};
ghost use Rattle.yaml_c.specs.HeldLaws.{GivesBeginning, GivesAll, IsOneReading, ShowsNext};
ghost use Rattle.yaml_c.specs.Laws.{HoldsAll, HoldsBeginning, KeepsSize};
ghost use Rattle.yaml_c.specs.PiecesHeld.{PiecesCome};

use crate::record::bogzhami_token;

/// A room for texts that is large enough holds all of them, and what follows them is unchanged; a smaller one holds a
/// beginning. It keeps its size.
pub fn texts_in_room()
    ensures all { HoldsAll ℕ }
    ensures beginning { HoldsBeginning ℕ }
    ensures size { KeepsSize ℕ }
{}

/// A room for records that is large enough holds all of them, and what follows them is unchanged; a smaller one holds a
/// beginning. It keeps its size.
pub fn records_in_room()
    ensures all { HoldsAll bogzhami_token }
    ensures beginning { HoldsBeginning bogzhami_token }
    ensures size { KeepsSize bogzhami_token }
{}

/// The tokens of all batches of a scanner, joined, are a beginning of those of its input, and a token that is known to
/// come next is the next of these. When the scanner is over, they are what reading the input to its end returns, in one
/// call as in many; that is one list and one fault, if memory is not refused.
pub fn batches_joined()
    ensures beginning { GivesBeginning }
    ensures next { ShowsNext }
    ensures all { GivesAll }
    ensures one { IsOneReading }
{}

/// A scanner that is given its input in pieces is one of the longer input too, once more of it came.
pub fn pieces_come()
    ensures { PiecesCome }
{}
