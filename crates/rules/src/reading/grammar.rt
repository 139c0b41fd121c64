//! The law that reading is what its grammar says.
ghost use Rattle.rules.specs.reading.Grammar.{ReadsByGrammar, FailsByGrammar, HasOneOutcome};

/// The law that words read as a rule exactly where they are options, each legal beside those before it, and have what
/// they need after the last; that they are refused exactly where they have a fault; and that each list of words has a
/// rule or a fault.
///
/// It does nothing: its contract is the law.
pub fn reading_is_by_grammar()
    ensures reads { ReadsByGrammar }
    ensures fails { FailsByGrammar }
    ensures one { HasOneOutcome }
{}
