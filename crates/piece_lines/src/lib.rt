//! Piece lines: the input of a broker's stock and of what a wallet takes. Each line is a scrip text, a
//! space, the secret of the piece's customer as 32 lower-case hex digits, and an LF. An input is 1 to 256
//! of them.
//!
//! [`read_piece_lines`] reads an input, [`read_piece_ids`] the identities of its pieces alone, and [`read_secret`] what
//! stands behind the text of a line.
//!
//! Only [`read_piece_lines`] takes memory: room for what it appends.
#![tactic(auto)]

mod ids;
mod law;
mod line;
mod lines;
mod rule;
#[cfg(test)]
mod tests;

pub use ids::read_piece_ids;
pub use law::{
    fronts_tell_the_input, input_lines_tell_the_input, lines_are_of_pieces, long_inputs_break,
};
pub use line::read_secret;
pub use lines::{PieceLinesFault, read_piece_lines};
pub use rule::PieceRule;
