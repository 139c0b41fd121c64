//! Packets under answers about conditions.
use crate::boxes::area::Area;
use crate::foreign::answers::Answers;

/// The packets of a box, where these answers are right.
#[derive(Drop)]
pub struct Scope {
    /// The box.
    pub area: Area,
    /// The answers.
    pub answers: Answers,
}
