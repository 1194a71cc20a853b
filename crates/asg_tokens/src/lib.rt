//! Files of tokens, square and rect, and what every input file is made of: lines, pieces, numbers
//! and costs.
//!
//! Contracts see what a file of tokens is read as (`reading_of_square`, `reading_of_rect`): a
//! function of the tokens of the whole text, which spells an instance or refuses the text for its
//! earliest fault. Of a line they see its fields, and of a field the number or cost that it spells.
//! The crate serves the readers of the other files, which refuse texts in the same words.
#![tactic(auto)]

mod cell_blocks;
mod cells;
mod digit_words;
mod line_fields;
mod lines;
mod numbers;
mod pair_blocks;
mod pieces;
mod refusals;
mod short_integers;
mod slots;
mod tables;

pub use cells::cost;
pub use line_fields::{is_at_end, is_word};
pub use lines::first_line;
pub use numbers::{integer, size};
pub use pieces::{Piece, Separators, first_piece};
pub use refusals::TextRefusal;
pub use short_integers::{ShortId, ShortInteger, behind_byte, short_id, short_integer};
pub use tables::{read_rect, read_square};
