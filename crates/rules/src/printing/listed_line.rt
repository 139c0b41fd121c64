//! The law that the line of a rule in a listing reads back.
ghost use Rattle.rules.specs.Printing.{LinesOfRulesReadBack};

/// The law that the line `-A name` with the text of a rule, where that text reads back, is one line of at most 8,876
/// bytes, whose words are `-A`, the name and words that read as the rule. It does nothing.
#[tactic(auto, using(crate::proofs::laws::printing::RoundTripLaws::lines_of_rules_read_back))]
pub fn lines_of_rules_read_back()
    ensures { LinesOfRulesReadBack }
{}
