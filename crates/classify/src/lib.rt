//! The classifier of a list of boxes: on each field its line of cuts and rows of bits, edited in place,
//! and the search for the next box that allows a point.
#![tactic(auto)]

mod classifier;
mod line;
mod search;

pub use bits::BitRow;
pub use classifier::Classifier;
pub use classifier::candidates::Candidates;
pub use classifier::of_rules::{
    boxes_stand_for_their_rules, rules_have_one_classifier, rules_have_the_computed_line,
    targets_leave_the_classifier,
};
pub use classifier::rows::CandidateRows;
pub use line::boxes_have_one_line;
pub use line::view::{Line, Piece, Pieces, Row};
