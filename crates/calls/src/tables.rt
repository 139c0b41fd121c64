//! Tables, commands and sections: what no line of a session brings out.
pub mod commands;
pub mod lent;
pub mod sections;
pub mod taps;
