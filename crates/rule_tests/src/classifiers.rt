//! Classifiers after edits, beside plain lists.
mod bit_rows;
mod dice;
mod drafts;
mod drawn;
mod edits;
mod emptied;
mod front;
mod pair;
mod rows;
mod searches;
mod shared_bits;
mod texts;
