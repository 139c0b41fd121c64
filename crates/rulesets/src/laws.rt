//! Laws: what was read for the rules of a dump stands beside them, once its text is restored; and verdicts of targets' own are told by readings of them.
ghost use Rattle.rulesets.specs.OwnVerdicts.{ReadingsAreFaithful, ReadingsTell};
ghost use Rattle.rulesets.specs.RulesByLines.{RulesStandBesideNeeds};

/// The law that after lines that move no rules, as those of a section of which some rule needs something (`dumps::Reading::finish`), are
/// restored, the k-th line `-A` of a chain is the chain's k-th rule, and needs what was read for its k-th. It does nothing.
pub fn rules_stand_beside_needs()
    ensures { RulesStandBesideNeeds }
{}

/// The law that a packet gets in each reading of verdicts of targets' own, as ACCEPT or DROP, what is read of what becomes of it; so the same becomes of
/// a packet in two tables where it gets one verdict from both in some readings: the one in which all such verdicts drop, and others that tell their
/// words apart. It does nothing.
pub fn own_verdicts_are_told()
    ensures faithful { ReadingsAreFaithful }
    ensures tell { ReadingsTell }
{}
