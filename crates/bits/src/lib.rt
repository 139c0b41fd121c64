//! Rows of bits, packed into words: one row by itself, and rows of equally many bits that are edited together.
#![tactic(auto)]

mod bit_row;
mod block;
mod blocks;
mod each_row;
mod margin_rows;
mod moves;
mod places;
mod row_move;
mod row_part;
mod row_words;
mod rows;
mod slot_words;
mod sparse;
mod summary;
mod turned_rows;
mod whole_rows;
mod words;

pub use bit_row::{BitRow, MOST_BITS};
pub use blocks::Blocks;
pub use margin_rows::MarginRows;
pub use row_words::RowWords;
pub use rows::{Rows, TWO_WORDS};
pub use summary::{is_marked, next_marked};
pub use turned_rows::{TurnedRows, TurnedWords};
