//! The law that a renamed rule reads back.
ghost use Rattle.rules.specs.Printing.{RenamedReadsBack};

/// The law that a rule whose text reads back has such a text with any other chain as its target, too. It does nothing.
#[tactic(auto, using(crate::proofs::laws::printing::RoundTripLaws::renamed_reads_back))]
pub fn renamed_reads_back()
    ensures { RenamedReadsBack }
{}
