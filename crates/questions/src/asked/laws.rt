//! Laws about the answers: no two of them hold at once, dead rules can be deleted, and rules that a packet doesn't match can change
//! without changing its verdict.
ghost use Rattle.questions.specs.asked.Changes.{ChangesElsewhere, ChangesOffTheWalk};
ghost use Rattle.questions.specs.asked.Laws.{DeadIsNotLive, DeadRulesCanGo, DeadRulesCanGoRenumbered, DeadRulesCanGoUnder, DeletionsLeaveTheRest, LinesWritePacketsAtHooks, SameIsNotOther};

/// The law that a packet line writes only packets that can be at their hooks; so no rule is both dead and live, and
/// no two tables both give each packet the same verdict and give one packet two verdicts. The call does nothing.
pub fn answers_exclude_each_other()
    ensures lines { LinesWritePacketsAtHooks }
    ensures dead { DeadIsNotLive }
    ensures same { SameIsNotOther }
{}

/// The law that a table can do without its dead rules, some of them or all at once: each packet that can be at its
/// hook gets the verdict that it got, unless its walk was too long. So can rules of a table whose rules need something, where some conditions
/// hold and they are dead then; afterwards, as in a dump that is read anew, conditions may have other numbers. The commands `-D chain number`,
/// in each chain the last rule first, are accepted, and leave the table without them. The call does nothing.
pub fn dead_rules_can_go()
    ensures verdicts { DeadRulesCanGo }
    ensures needs { DeadRulesCanGoUnder }
    ensures renumbered { DeadRulesCanGoRenumbered }
    ensures commands { DeletionsLeaveTheRest }
{}

/// The law that a packet gets the same verdict from two tables if it matches none of the rules by which they differ, and its hook has one
/// policy in both. Which rules went and which came is for the caller to say: without them each chain name has the same rules in both
/// tables. Walks that are too long are included. It does nothing.
pub fn changes_elsewhere()
    ensures { ChangesElsewhere }
{}

/// The same law, where in each table the packet matches none of the rules, or none of them is on its walk, which isn't too long: so
/// changed rules that are dead change no verdict. It does nothing.
pub fn changes_off_the_walk()
    ensures { ChangesOffTheWalk }
{}
