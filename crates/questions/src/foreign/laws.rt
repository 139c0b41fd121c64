//! Laws about conditions that this program doesn't know: what they leave of a table, and which answers can be given.
ghost use Rattle.questions.specs.asked.Laws.{AnswersCanBeGiven, ChainsKeepPlaces, EitherCanBeGiven, NeverMatches, NoNeedsChangeNothing, ResolvedIsSound};

/// The law that a table like any other is left once it is known which conditions hold. Each rule has its place in it: itself where all holds
/// that it needs, and else a rule that matches no packet. Without needs it is the table itself. The call does nothing.
pub fn conditions_leave_a_table()
    ensures sound { ResolvedIsSound }
    ensures places { ChainsKeepPlaces }
    ensures never { NeverMatches }
    ensures none { NoNeedsChangeNothing }
{}

/// The law that some assignment gives answers of which no two are about one condition, and that a condition without an answer may hold, and
/// may not. The call does nothing.
#[tactic(auto, using(crate::proofs::laws::AnswerLaws::some_assignment_gives, crate::proofs::laws::AnswerLaws::either_is_given))]
pub fn answers_can_be_given()
    ensures given { AnswersCanBeGiven }
    ensures either { EitherCanBeGiven }
{}
