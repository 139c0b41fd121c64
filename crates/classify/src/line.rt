//! Lines of cuts: where the answers of a list of boxes change, and what they are from there on.

ghost use Rattle.classify.specs.Laws.{BoxesHaveOneLine};

pub(crate) mod edit;
pub(crate) mod owned;
pub(crate) mod put;
pub(crate) mod starts;
pub(crate) mod view;

/// The law that boxes have one line on a field: its contract is the law, and it does nothing.
pub fn boxes_have_one_line()
    ensures { BoxesHaveOneLine }
{}
