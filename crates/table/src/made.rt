//! The law that every table is made by edits: the contract is the law, and the function does nothing.
ghost use Rattle.table.specs.edits.Headline.{TablesAreMadeByEdits};

/// The law that every table is made of the empty one by edits of which none is refused: first its chains, the policy of
/// each built-in chain and each user chain in the order of a listing, and then the rules, chain by chain.
#[tactic(auto, using(crate::proofs::laws::edits::MadeLaws::tables_made))]
pub fn tables_are_made_by_edits()
    ensures { TablesAreMadeByEdits }
{}
