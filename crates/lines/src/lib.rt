// The text of a listing (document 01, "Yards to try"), put into a buffer.
//
//     fields   numbers and words
//     moves    the lines of moves and of a refusal
#![tactic(auto)]

mod fields;
mod moves;

pub use moves::{put_moves, put_refusal};
